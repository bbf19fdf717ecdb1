// What the command `help` writes: a line for each command.
ghost use Rattle.std.specs.Prelude.{◌≡◌};
ghost use Rattle.command_line.specs.Command.{help_text};

/// A line for each command, with its words and options.
#[tactic(auto, unfolding(crate::specs::Command::help_text))]
pub fn help_text() -> &'static str
    ensures { result.now ≡ help_text }
{
    "acewiki replay [--budget N]\nacewiki serve ADDRESS [--budget N] [--events N]\nacewiki make COUNT SEED [--budget N]\nacewiki help\nacewiki say [--budget N]\nacewiki export [--budget N]\nacewiki check [--budget N]\nacewiki import\nacewiki why ARTICLE AT [--budget N] [--name NAME]\n"
}
