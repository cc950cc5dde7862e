//! Laws of the definitions: each is the contract of a function that does nothing.
ghost use Rattle.capkit.specs.Arguments.{LineIsFree, LineIsSimple};

/// The whole line is a command of which clap states what a parse gives: it is simple (no subcommand
/// has its own, only the last argument by place takes several values, none has a delimiter or needs
/// `=`) and free (no argument has a rule on another), whatever the names of its formats and links.
/// So an argument that isn't so ends what is proved of the command line.
pub fn line_is_simple()
    ensures simple { LineIsSimple }
    ensures free { LineIsFree }
{}
