// The edges of lines, numbers and answers.
use keyboard::{Line, answer, command};
use model::calls::{Call, Reply};
use model::refusals::Refusal;

fn answers(reply: Reply, line: &[u8]) -> bool {
    let written = answer(reply);
    written.bytes() == line
}

#[test]
fn edges_of_numbers(rt: HostRuntime) {
    assert_eq!(rt; command(b"hold 99999"), Some(Call::Hold(99999)));
    assert_eq!(rt; command(b"hold 100000"), None);
    assert_eq!(rt; command(b"byte 1 0 255"), Some(Call::Byte(1, 0, 255)));
    assert_eq!(rt; command(b"byte 1 0 256"), None);
    assert_eq!(rt; command(b""), None);
}

#[test]
fn edges_of_lines(rt: HostRuntime) {
    let mut line = Line::new();
    for _ in 0..80 {
        line.push(b'1');
    }
    assert_eq!(rt; line.bytes().len(), 80);
    line.push(b'1');
    line.push(b'1');
    assert_eq!(rt; line.bytes().len(), 81);
    assert!(rt; command(line.bytes()).is_none());
    line.clear();
    assert!(rt; line.is_empty());
}

#[test]
fn edges_of_answers(rt: HostRuntime) {
    assert!(rt; answers(Reply::Number(0), b"ok 0\n"));
    assert!(rt; answers(Reply::Number(4095), b"ok 4095\n"));
    assert!(rt; answers(Reply::Done, b"ok\n"));
    assert!(rt; answers(Reply::Refused(Refusal::BadLine), b"refused 14\n"));
}
