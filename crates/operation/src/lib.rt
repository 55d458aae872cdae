// Operations and their table (document 01, "Operations and their table").
#![tactic(auto)]

ghost use Rattle.std.specs.Prelude.{◌≡◌, true, false, IfOk, IfErr, cond, not, ◌&&◌, map, ℕ, ◌<◌, length, leb, ltb, eqb};
ghost use Rattle.rules.specs.Lists.{every};
ghost use Rattle.rules.specs.Answer.{good, refuse_first};
ghost use Rattle.rules.specs.Operations.{operations, kind_of, good_table, field, op_fault};
ghost use Rattle.refusal.specs.Told.{told};
ghost use Rattle.operation.specs.Verdict.{op, one_fault, kind_named};

use refusal::Refusal;

// The field's size, 2^64 - 2^32 + 1.
pub const FIELD: u64 = 18446744069414584321;

// ---- the table

// What an operation has beside its opcode: nothing, a value that is placed in a group, or one that is carried and never placed.
#[derive(Clone, Copy, Debug, PartialEq, Eq)]
pub enum Kind {
    Plain,
    Placed,
    Carried,
    Unassigned,
}

impl From<u8> for Kind {
    ghost from_gives = { λ n kind. kind ≡ kind_named n };

    fn from(number: u8) -> Kind {
        match number {
            0 => Kind::Plain,
            1 => Kind::Placed,
            2 => Kind::Carried,
            _ => Kind::Unassigned,
        }
    }
}

// `code < 128` stands where an opcode is asked for: opcodes are bytes of lent runs, and a type for those that are one would be made and undone at each byte.
// As an index an opcode is taken by `as`, here and in wire, batcher and commitment: beside `Kind::from` a second `from` says no more.

// Whether an opcode has a value.
pub fn has_value(table: &[u8; 128], code: u8) -> bool
    requires { code < 128 }
    ensures { result ≡ not (eqb (kind_of table.now code) 0) }
{
    Kind::from(table[code as usize]) != Kind::Plain
}

// Whether an opcode has a value that is placed in a group.
pub fn has_immediate(table: &[u8], code: u8) -> bool
    requires { code < length table.now }
    ensures { result ≡ eqb (kind_of table.now code) 1 }
{
    Kind::from(table[code as usize]) == Kind::Placed
}

// Only kinds 0 to 3: all are looked at, whatever the first ones say, so that the machine can look at them abreast.
fn kinds_right(table: &[u8; 128]) -> bool
    ensures { result ≡ every (λ (k : ℕ). leb k 3) table.now }
{
    let mut ok = true;
    for kind in table {
        ok &= *kind <= 3;
    }
    ok
}

// Exactly 128 bytes, only kinds 0 to 3, and kind 0 for opcode 0.
pub fn good_table(table: &[u8]) -> bool
    ensures { result ≡ good_table table.now }
{
    let Ok(table) = <&[u8; 128]>::try_from(table) else {
        return false;
    };
    table[0] == 0 && kinds_right(table)
}

// A good table, or refusal 14. The test stands in `good_table`, which is public by itself.
pub fn checked(table: &[u8]) -> Result<&[u8; 128], Refusal>
    ensures ok { IfOk result (λ t. (t.now ≡ table.now) × (good_table table.now ≡ true)) }
    ensures err { IfErr result (λ r. (r ≡ Refusal.BadTable) × (good_table table.now ≡ false)) }
{
    let Ok(kinds) = <&[u8; 128]>::try_from(table) else {
        return Err(Refusal::BadTable);
    };
    if good_table(table) {
        Ok(kinds)
    } else {
        Err(Refusal::BadTable)
    }
}

// ---- operations

// Whether a value goes with an opcode of this kind.
pub fn value_right(kind: u8, v: u64) -> bool
    ensures { result ≡ cond (not (eqb kind 0)) (ltb v field) (eqb v 0) }
{
    match Kind::from(kind) {
        Kind::Plain => v == 0,
        Kind::Placed | Kind::Carried | Kind::Unassigned => v < FIELD,
    }
}

// Whether the i-th operation is admissible; its opcode is looked at first.
pub fn fault(table: &[u8; 128], code: u8, v: u64, i: usize) -> Result<(), Refusal>
    ensures { told result ≡ one_fault (op_fault table.now (op code v)) i }
{
    if 128 <= code {
        return Err(Refusal::Unassigned { operation: i });
    }
    let kind = table[code as usize];
    if Kind::from(kind) == Kind::Unassigned {
        return Err(Refusal::Unassigned { operation: i });
    }
    if value_right(kind, v) {
        Ok(())
    } else {
        Err(Refusal::BadValue { operation: i })
    }
}

// The first operation of a list that is not admissible. Its number is asked for, so that a `zip` of the two runs would want one beside it.
pub fn first_fault(table: &[u8; 128], codes: &[u8], values: &[u64]) -> Result<(), Refusal>
    requires { length codes.now ≡ length values.now }
    ensures { told result ≡ refuse_first 0 (map (op_fault table.now) (operations codes.now values.now)) (good tt) }
{
    for (i, code) in codes.iter().enumerate() {
        fault(table, *code, values[i], i)?;
    }
    Ok(())
}
