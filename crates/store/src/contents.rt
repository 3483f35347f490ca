// What a store holds.
ghost use Rattle.std.specs.Prelude.{◌*◌, ◌≤◌, length};

use crate::tables::Tables;

// The tables that the host lends, and what is kept beside them, at every moment of a call. The rules of a lawful store may
// be broken here on the way; that the tables have room for N records never is.
#[derive(Drop)]
pub struct Contents<'a, K> {
    pub(crate) tables: Tables<'a, K>,
    // N: how many records there are. It stands beside the tables, since tables that do not fit stay whole, and N is 0
    pub(crate) n: usize,
    // how many records are on the candidate list, the first entries of its table. It stands beside the table, which is lent
    // and cannot grow
    pub(crate) listed: usize,
    // the first free record; 0 where there is none, as the chain itself says it
    pub(crate) front: usize,
    // how many records the call under way has given up
    pub(crate) given: usize,
    ghost few: { n ≤ 4095 },
    ghost records_room: { n ≤ length tables.records.now },
    ghost heads_room: { n ≤ length tables.heads.now },
    ghost list_room: { n ≤ length tables.list.now },
    ghost work_room: { 2 * n ≤ length tables.work.now },
    ghost listed_room: { listed ≤ n },
}
