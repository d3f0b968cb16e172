// The names of functions and operations, by their codes, as the listing writes them.
ghost use Rattle.std.specs.Prelude.{◌≡◌, ◌<◌, ◌≤◌, ◌++◌, length, []};
ghost use Rattle.rules.specs.Tests.{look};
ghost use Rattle.assembly.specs.Names.{function_names, operation_names};
ghost use Rattle.assembler.specs.Text.{name_line};

use crate::line::Line;

static FUNCTIONS: [&str; 16] = [
    "j", "ldlp", "pfix", "ldnl", "ldc", "ldnlp", "nfix", "ldl", "adc", "call", "cj", "ajw", "eqc",
    "stl", "stnl", "opr",
];

// No operation has a code past the last one here.
static OPERATIONS: [Option<&str>; 90] = [
    Some("rev"),
    Some("lb"),
    Some("bsub"),
    Some("endp"),
    Some("diff"),
    Some("add"),
    Some("gcall"),
    Some("in"),
    Some("prod"),
    Some("gt"),
    Some("wsub"),
    Some("out"),
    Some("sub"),
    Some("startp"),
    Some("outbyte"),
    Some("outword"),
    Some("seterr"),
    None,
    Some("resetch"),
    Some("csub0"),
    None,
    Some("stopp"),
    Some("ladd"),
    Some("stlb"),
    Some("sthf"),
    Some("norm"),
    Some("ldiv"),
    Some("ldpi"),
    Some("stlf"),
    Some("xdbl"),
    Some("ldpri"),
    Some("rem"),
    Some("ret"),
    Some("lend"),
    Some("ldtimer"),
    None,
    None,
    None,
    None,
    None,
    None,
    Some("testerr"),
    Some("testpranal"),
    Some("tin"),
    Some("div"),
    None,
    Some("dist"),
    Some("disc"),
    Some("diss"),
    Some("lmul"),
    Some("not"),
    Some("xor"),
    Some("bcnt"),
    Some("lshr"),
    Some("lshl"),
    Some("lsum"),
    Some("lsub"),
    Some("runp"),
    Some("xword"),
    Some("sb"),
    Some("gajw"),
    Some("savel"),
    Some("saveh"),
    Some("wcnt"),
    Some("shr"),
    Some("shl"),
    Some("mint"),
    Some("alt"),
    Some("altwt"),
    Some("altend"),
    Some("and"),
    Some("enbt"),
    Some("enbc"),
    Some("enbs"),
    Some("move"),
    Some("or"),
    Some("csngl"),
    Some("ccnt1"),
    Some("talt"),
    Some("ldiff"),
    Some("sthb"),
    Some("taltwt"),
    Some("sum"),
    Some("mul"),
    Some("sttimer"),
    Some("stoperr"),
    Some("cword"),
    Some("clrhalterr"),
    Some("sethalterr"),
    Some("testhalterr"),
];

// Adds the name of a function to a line.
pub(crate) fn put_function_name(function: usize, line: &mut Line)
    requires { (function < 16) × (length line.old ≤ 13) }
    ensures { line.new ≡ line.old ++ look function_names function [] }
{
    line.push_str(FUNCTIONS[function]);
}

// Returns the line of an operation, its name alone, where one with this code is built.
pub(crate) fn operation_line(code: u32) -> Option<Line>
    ensures { result ≡ name_line (look operation_names code []) }
{
    let row = code as usize;
    if row < OPERATIONS.len() {
        if let Some(name) = OPERATIONS[row] {
            let mut line = Line::new();
            line.push_str(name);
            line.push(b'\n');
            return Some(line);
        }
    }
    None
}
