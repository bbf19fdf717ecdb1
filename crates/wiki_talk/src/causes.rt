// The names of causes.
ghost use Rattle.std.specs.Prelude.{◌≡◌};
ghost use Rattle.wiki_talk.specs.Statuses.{cause_name};

use logic_terms::Cause;

/// The name that lines and pages tell of why a sentence has no axioms or asks for no class.
pub fn cause_name(cause: Cause) -> &'static str
    ensures { result.now ≡ cause_name cause }
{
    match cause {
        Cause::Shared => "shared",
        Cause::Cycle => "cycle",
        Cause::NoRoot => "noroot",
        Cause::Equality => "equality",
        Cause::Free => "free",
    }
}
