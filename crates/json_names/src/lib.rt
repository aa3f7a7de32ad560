// The names of the kinds, put as JSON strings.
#![tactic(auto)]

ghost use Rattle.std.specs.Prelude.{◌≡◌, [], ◌-◌, ◌≤◌, ◌<◌, get_or};
ghost use Rattle.json_text.specs.Values.{quoted};
ghost use Rattle.json_text.specs.Json.{expression_names, statement_names, name};
ghost use Rattle.json_values.specs.Puts.{Puts};

use json_values::Out;
use refusals::Reason;

// The name of a kind below 32.
#[tactic(auto, unfolding(json_text::specs::Json::expression_names))]
fn expression_name(kind: u32) -> &'static [u8]
    requires { kind < 32 }
    ensures { result.now ≡ get_or expression_names kind [] }
{
    match kind {
        1 => b"none",
        2 => b"identifier",
        3 => b"int",
        4 => b"float",
        5 => b"char",
        6 => b"string",
        7 => b"bool",
        8 => b"array",
        9 => b"hash",
        10 => b"index",
        11 => b"call",
        12 => b"infix",
        13 => b"prefix",
        14 => b"suffix",
        15 => b"lambda",
        16 => b"shell",
        17 => b"attribute",
        18 => b"name",
        19 => b"pair",
        _ => b"",
    }
}

// The name of a kind from 32 on.
#[tactic(auto, unfolding(json_text::specs::Json::statement_names))]
fn statement_name(kind: u32) -> &'static [u8]
    requires { 32 ≤ kind }
    ensures { result.now ≡ get_or statement_names (kind - 32) [] }
{
    match kind {
        32 => b"break",
        33 => b"continue",
        34 => b"var",
        35 => b"const",
        36 => b"return",
        37 => b"throw",
        38 => b"expression",
        39 => b"try",
        40 => b"function",
        41 => b"for",
        42 => b"while",
        43 => b"assert",
        44 => b"if",
        45 => b"foreach",
        46 => b"block",
        _ => b"",
    }
}

// The name of a kind; none for a number that is no kind's.
#[tactic(auto, unfolding(json_text::specs::Json::name))]
pub fn put_name(out: &mut Out, kind: u32) -> Result<(), Reason>
    ensures { Puts (quoted (name kind)) out.old out.new result }
{
    let name = if kind < 32 {
        expression_name(kind)
    } else {
        statement_name(kind)
    };
    out.put_quoted(name)
}
