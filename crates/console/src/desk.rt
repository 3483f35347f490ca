// The line that is being typed. The store is not in here: it is the host's, which may call it between two bytes.
use keyboard::Line;

#[derive(Drop)]
pub struct Desk {
    pub(crate) line: Line,
}
