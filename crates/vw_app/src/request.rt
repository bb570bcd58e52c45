ghost use Rattle.std.specs.Prelude.{◌≡◌, ◌^◌, ◌<◌, ◌≤◌, map, string_bytes, IfSome, IfNone, List, ℕ};
ghost use Rattle.std.specs.Fmt.{decimal};
ghost use Rattle.vw_app.specs.Answer.{Asks, AsksCheck, AsksNumbers, word};

use vw_report::decimal_of;

/// What the program is asked to do with a file.
#[derive(Clone, Copy, Debug, PartialEq, Eq)]
pub enum Command {
    /// Say whether every function stays in its sandbox.
    Verify,
    /// Say the same, and print the least tables where it is so.
    Report,
    /// List the code of every function.
    List,
    /// List the functions, tables and imports.
    Info,
}

/// The command and the name of the file that the words ask for. None where they ask for no file.
pub fn request_of<'a>(words: &'a [String]) -> Option<(Command, &'a str)>
    ensures asks { IfSome result (λ request.
        Asks (map string_bytes words.now) request.0 request.1.now) }
    ensures none { IfNone result ((command : Command) (name : List ℕ)
        → Asks (map string_bytes words.now) command name → ⊥) }
{
    match words {
        [command, file] => Some((command_of(command)?, file.as_str())),
        _ => None,
    }
}

fn command_of(command: &String) -> Option<Command>
    ensures found { IfSome result (λ c. string_bytes command.now ≡ word c) }
    ensures none { IfNone result ((c : Command) → string_bytes command.now ≡ word c → ⊥) }
{
    match command.as_str() {
        "verify" => Some(Command::Verify),
        "report" => Some(Command::Report),
        "list" => Some(Command::List),
        "info" => Some(Command::Info),
        _ => None,
    }
}

/// The names of the file and of the report that the words ask to be checked. None where they ask for no such check.
pub fn report_of<'a>(words: &'a [String]) -> Option<(&'a str, &'a str)>
    ensures asks { IfSome result (λ names.
        AsksCheck (map string_bytes words.now) names.0.now names.1.now) }
    ensures none { IfNone result ((name report : List ℕ)
        → AsksCheck (map string_bytes words.now) name report → ⊥) }
{
    match words {
        [command, file, report] => match command.as_str() {
            "check" => Some((file.as_str(), report.as_str())),
            _ => None,
        },
        _ => None,
    }
}

/// The number of functions, 1 to 65,536, and the number of the module that is made, which the words name behind this
/// first one. None where they name no such module.
pub fn numbers_behind(words: &[String], first: &str) -> Option<(u32, u64)>
    ensures asks { IfSome result (λ numbers.
        AsksNumbers first.now (map string_bytes words.now) numbers.0 numbers.1) }
    ensures none { IfNone result ((functions number : ℕ)
        → AsksNumbers first.now (map string_bytes words.now) functions number → ⊥) }
{
    match words {
        [command, functions, number] if command.as_str() == first => {
            numbers_of(functions, number)
        }
        _ => None,
    }
}

// A number of functions and a number, from their digits.
fn numbers_of(functions: &String, number: &String) -> Option<(u32, u64)>
    ensures are { IfSome result (λ n. (string_bytes functions.now ≡ decimal n.0) × (1 ≤ n.0)
        × (n.0 ≤ 65536) × (string_bytes number.now ≡ decimal n.1) × (n.1 < 2 ^ 64)) }
    ensures none { IfNone result ((m n : ℕ) → string_bytes functions.now ≡ decimal m → 1 ≤ m
        → m ≤ 65536 → string_bytes number.now ≡ decimal n → n < 2 ^ 64 → ⊥) }
{
    let number = decimal_of(number.as_bytes())?;
    let functions = decimal_of(functions.as_bytes())?;
    if 1 <= functions && functions <= 65_536 {
        Some((functions as u32, number))
    } else {
        None
    }
}
