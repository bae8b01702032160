// What cells were told.
ghost use Rattle.std.specs.Prelude.{◌≡◌};
ghost use Rattle.std.specs.Option.{option_copied};
ghost use Rattle.zb_tokens.specs.Marks.{error_of, has_come_about, is_unset};

use zb_base::Text;
use zb_tokens::Mark;

/// Whether nothing was told so far.
pub fn is_unset(mark: &Mark) -> bool
    ensures { result ≡ is_unset mark.now }
{
    matches!(mark, Mark::Unset)
}

/// Whether what was waited for has come.
pub fn has_come_about(mark: &Mark) -> bool
    ensures { result ≡ has_come_about mark.now }
{
    matches!(mark, Mark::Done | Mark::Chosen(_))
}

/// The code of the error that was thrown.
pub fn error_of(mark: &Mark) -> Option<&Text>
    ensures { option_copied result ≡ error_of mark.now }
{
    match mark {
        Mark::Thrown(code) => Some(code),
        Mark::Unset | Mark::Done | Mark::Chosen(_) => None,
    }
}
