// The command line that the program is started with.
ghost use Rattle.std.specs.Prelude.{◌≡◌, ◌<◌, length, drop, map, string_bytes, IfSome};
ghost use Rattle.std.specs.Option.{option_map};
ghost use Rattle.alto.specs.CommandLines.{is_help, asks_help, path_at, IsCommandLine, InRange};

use disk_image::start_of;

/// What the words after the program's name ask of it. What those after PACK ask of a machine is for alto_top to say.
#[derive(Clone, Copy)]
pub enum CommandLine<'a> {
    /// The text of `--help`.
    Help,
    /// A machine over a pack file, or two, and the words after PACK.
    Machine(Call<'a>),
    /// Nothing: they are no command line.
    Nothing,
}

/// A command line `[--cylinders C] [--second PACK2] PACK WORDS`.
#[derive(Clone, Copy)]
pub struct Call<'a> {
    /// The number of cylinders, 2 to 406, of new pack files that are made first.
    pub cylinders: Option<u16>,
    /// PACK2, the path of the second drive's pack file. None where there is one drive.
    pub second: Option<&'a str>,
    /// PACK, the path of the first drive's pack file.
    pub path: &'a str,
    /// The words after PACK.
    pub words: &'a [String],
}

/// The words after the program's name, which comes first.
pub fn words_after_name(args: &[String]) -> &[String]
    ensures words { result.now ≡ drop 1 args.now }
{
    match args {
        [] => &[],
        [_, words @ ..] => words,
    }
}

/// Whether a word is `--help`.
fn is_help(word: &[u8]) -> bool
    ensures { result ≡ is_help word.now }
{
    word == b"--help".as_slice()
}

/// Whether the words are `--help` alone.
fn asks_help(words: &[String]) -> bool
    ensures { result ≡ asks_help (map string_bytes words.now) }
{
    match words {
        [word] => is_help(word.as_bytes()),
        _ => false,
    }
}

/// The path at an index among the words, where there is one.
fn path_at(words: &[String], at: Option<usize>) -> Option<&str>
    requires { IfSome at (λ at. at < length words.now) }
    ensures { option_map (λ path. path.now) result ≡ path_at (map string_bytes words.now) at }
{
    match at {
        Some(at) => Some(words[at].as_str()),
        None => None,
    }
}

/// Reads the words after the program's name.
pub fn read_command_line(words: &[String]) -> CommandLine<'_>
    ensures reads { IsCommandLine (map string_bytes words.now) result }
    ensures range { InRange result }
{
    if asks_help(words) {
        return CommandLine::Help;
    }
    match start_of(words) {
        Some(start) => CommandLine::Machine(Call {
            cylinders: start.cylinders,
            second: path_at(words, start.second),
            path: words[start.pack].as_str(),
            words: &words[start.rest..],
        }),
        None => CommandLine::Nothing,
    }
}
