// The records and heads of a new store.
ghost use Rattle.std.specs.Prelude.{◌≡◌, ◌≤◌, map, length, replicate};
ghost use Rattle.std.specs.List.{range_with_len};
ghost use Rattle.kinds.specs.Rows.{blank as blank_row};
ghost use Rattle.model.specs.Calls.{next_free};
ghost use Rattle.model.specs.Headers.{header, free_header};

use kinds::kind::Kind;
use model::heads::Head;

// Blanks every record.
pub(crate) fn blank_records<K: Kind>(records: &mut [K])
    ensures after { map K.Kind.row records.new ≡ replicate (length records.old) (blank_row K.Kind.shape) }
{
    records.fill_with(|| K::blank());
}

// Frees every record, chained 1, 2, up to the last; there are no more than a lawful store has.
pub(crate) fn chain_heads(heads: &mut [Head])
    requires lawful { length heads.old ≤ 4095 }
    ensures after { map header heads.new ≡ map (λ r. free_header (next_free (length heads.old) r)) (range_with_len 1 (length heads.old)) }
{
    let n = heads.len();
    for (i, head) in heads.iter_mut().enumerate() {
        let next = if i + 1 < n { i + 2 } else { 0 };
        // `as`: no number here passes 4,095
        *head = Head::free(next as u16);
    }
}
