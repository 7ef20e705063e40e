//! Command lines as tables.

use clap::ArgAction;
use clap::builder::ValueParser;

/// An option or a positional argument.
#[derive(Clone, Copy)]
pub struct Word {
    /// The name by which its value is read back; an option has this name on the command line too.
    pub name: &'static str,
    /// Whether it is an option.
    pub is_option: bool,
    /// Its form: it is a flag, has a value, or may be given several times.
    pub action: ArgAction,
    /// The name of its value in help, if that isn't its own name.
    pub value_names: &'static [&'static str],
    /// The parser of its value.
    pub parser: ValueParser<'static>,
    /// Its value if it isn't given.
    pub defaults: &'static [&'static str],
    /// Whether it must be given.
    pub is_required: bool,
    /// The options that exclude it.
    pub conflicts: &'static [&'static str],
    /// Its description in help.
    pub help: &'static str,
}

/// A program or a subcommand: its name, its description, and its words in order.
#[derive(Clone, Copy)]
pub struct Usage {
    pub name: &'static str,
    pub about: &'static str,
    pub words: &'static [Word],
}

/// A program, and its subcommands, one of which must be given if there are any.
#[derive(Clone, Copy)]
pub struct Program {
    pub usage: Usage,
    pub subcommands: &'static [Usage],
}

/// An option with a value, before it has a name.
pub const OPTION: Word = Word {
    name: "",
    is_option: true,
    action: ArgAction::Set,
    value_names: &[],
    parser: ValueParser::String,
    defaults: &[],
    is_required: false,
    conflicts: &[],
    help: "",
};

/// An option without a value, before it has a name.
pub const FLAG: Word = Word {
    action: ArgAction::SetTrue,
    parser: ValueParser::Bool,
    ..OPTION
};
