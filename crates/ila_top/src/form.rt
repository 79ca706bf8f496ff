ghost use Rattle.std.specs.Prelude.{◌≡◌, map, string_bytes};
ghost use Rattle.ila_top.specs.Commands.{asked};
ghost use Rattle.ila_top.specs.Words.{asked_of};

/// The words behind `sim`.
#[derive(Clone, Copy)]
pub struct Sim<'a> {
    pub netlist: &'a str,
    pub top: &'a str,
    pub clock: &'a str,
}

/// What the words of a command line ask for.
#[derive(Clone, Copy)]
pub enum Command<'a> {
    /// The words are of no command.
    Usage,
    /// `sim NETLIST TOP CLOCK`
    Sim(Sim<'a>),
}

/// The command that the words are of.
pub fn command_of(words: &[String]) -> Command<'_>
    ensures { asked_of result ≡ asked (map string_bytes words.now) }
{
    match words {
        [word, netlist, top, clock] if word.as_str() == "sim" => Command::Sim(Sim {
            netlist: netlist.as_str(),
            top: top.as_str(),
            clock: clock.as_str(),
        }),
        _ => Command::Usage,
    }
}
