// The text of `--help`.
use clap::{Arg, ArgAction, Command};
use std::alloc::{AllocError, Global};

/// The text of `--help`, as it is printed to standard output.
pub fn help_text(alloc: Global) -> Result<String, AllocError> {
    let cylinders = Arg::new(alloc, "cylinders")
        .long("cylinders")
        .value_name("C")
        .help("Makes the pack file first, or both, new and of zeros, with 2 to 406 cylinders");
    let second = Arg::new(alloc, "second")
        .long("second")
        .value_name("PACK2")
        .help("The path of the pack file of a second drive, as long as PACK");
    let help = Arg::new(alloc, "help")
        .long("help")
        .action(ArgAction::Help)
        .help("Prints this help, where it is the only word");
    let pack = Arg::new(alloc, "PACK")
        .required(true)
        .help("The path of the pack file");
    let words = Arg::new(alloc, "WORDS").required(true).help(
        "boot: obeys the lines that are typed; show: lists what the pack holds; scavenge: mends the pack; format N: formats the pack, whose number is N, 1 to 65535; prepare N: prepares its second drive",
    );
    let mut command = Command::new(alloc, "alto")
        .about("The operating system of the Xerox Alto, over disk pack files")
        .override_usage("alto [--cylinders C] [--second PACK2] PACK WORDS")
        .disable_help_flag(true)
        .arg(pack)?
        .arg(words)?
        .arg(cylinders)?
        .arg(second)?
        .arg(help)?;
    command.render_help()
}
