// The virtual machine's own table of kinds, and its operations' names, as its crate has them (operations/mod.rs).
#![tactic(auto)]

ghost use Rattle.std.specs.Prelude.{◌≡◌};
ghost use Rattle.rules.specs.Operations.{kind_of};
ghost use Rattle.operation.specs.Verdict.{kind_named};
ghost use Rattle.vm.specs.Kinds.{kinds};

use operation::Kind;

// Bytes, as a table is lent.
const KINDS: [u8; 128] = [
    0, 0, 0, 0, 0, 0, 3, 0, 0, 0, 0, 0, 0, 0, 0, 0, 0, 0, 0, 0, 0, 0, 0, 0, 0, 0, 0, 0, 0, 0, 0, 0,
    2, 0, 0, 0, 0, 0, 0, 0, 0, 0, 0, 0, 0, 0, 0, 3, 0, 0, 0, 0, 0, 0, 0, 0, 0, 0, 0, 0, 0, 0, 0, 0,
    0, 3, 0, 3, 0, 3, 0, 3, 0, 3, 2, 3, 0, 3, 0, 3, 0, 2, 0, 0, 3, 3, 3, 3, 3, 0, 0, 1, 3, 0, 0, 3,
    0, 3, 3, 3, 0, 3, 3, 3, 3, 3, 3, 3, 3, 3, 3, 3, 3, 3, 3, 3, 3, 3, 3, 3, 3, 3, 3, 3, 3, 3, 3, 3,
];

// The kinds of the opcodes 0 to 127.
pub fn table() -> [u8; 128]
    ensures { result ≡ kinds }
{
    KINDS
}

// The kind of an opcode; unassigned past the table.
pub fn kind(code: u8) -> Kind
    ensures { result ≡ kind_named (kind_of kinds code) }
{
    if code < 128 {
        Kind::from(table()[usize::from(code)])
    } else {
        Kind::Unassigned
    }
}

// The name of an operation; none where the opcode is unassigned.
pub fn name(code: u8) -> Option<&'static str> {
    Some(match code {
        0 => "noop",
        1 => "eqz",
        2 => "neg",
        3 => "inv",
        4 => "incr",
        5 => "not",
        7 => "mload",
        8 => "swap",
        9 => "caller",
        10 => "movup2",
        11 => "movdn2",
        12 => "movup3",
        13 => "movdn3",
        14 => "advpopw",
        15 => "expacc",
        16 => "movup4",
        17 => "movdn4",
        18 => "movup5",
        19 => "movdn5",
        20 => "movup6",
        21 => "movdn6",
        22 => "movup7",
        23 => "movdn7",
        24 => "swapw",
        25 => "ext2mul",
        26 => "movup8",
        27 => "movdn8",
        28 => "swapw2",
        29 => "swapw3",
        30 => "swapdw",
        31 => "emit",
        32 => "assert",
        33 => "eq",
        34 => "add",
        35 => "mul",
        36 => "and",
        37 => "or",
        38 => "u32and",
        39 => "u32xor",
        40 => "frie2f4",
        41 => "drop",
        42 => "cswap",
        43 => "cswapw",
        44 => "mloadw",
        45 => "mstore",
        46 => "mstorew",
        48 => "pad",
        49 => "dup0",
        50 => "dup1",
        51 => "dup2",
        52 => "dup3",
        53 => "dup4",
        54 => "dup5",
        55 => "dup6",
        56 => "dup7",
        57 => "dup9",
        58 => "dup11",
        59 => "dup13",
        60 => "dup15",
        61 => "advpop",
        62 => "sdepth",
        63 => "clk",
        64 => "u32add",
        66 => "u32sub",
        68 => "u32mul",
        70 => "u32div",
        72 => "u32split",
        74 => "u32assert2",
        76 => "u32add3",
        78 => "u32madd",
        80 => "hperm",
        81 => "mpverify",
        82 => "pipe",
        83 => "mstream",
        89 => "horner_eval_base",
        90 => "horner_eval_ext",
        91 => "push",
        93 => "eval_circuit",
        94 => "log_deferred",
        96 => "mrupdate",
        100 => "crypto_stream",
        _ => return None,
    })
}

fn is_named(code: u8, word: &[u8]) -> bool {
    name(code).is_some_and(|name| name.as_bytes().eq_ignore_ascii_case(word))
}

// The opcode of a name. A capital letter counts as its small one, and spaces behind the name count for nothing.
pub fn code_of(word: &[u8]) -> Option<u8> {
    let end = word
        .iter()
        .rposition(|b| *b != b' ')
        .map_or(0, |last| last + 1);
    let name = &word[..end];
    (0..128).find(|code| is_named(*code, name))
}
