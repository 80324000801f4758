ghost use Rattle.std.specs.Prelude.{◌≡◌};
ghost use Rattle.pass_survey.specs.Least.{least_of};
ghost use Rattle.pass_survey.specs.Found.{damage_number, header_number};

use crate::header::HeaderAt;
use tb_types::Damage;

/// The damage of the lesser block.
pub(crate) fn least_damage(one: Option<Damage>, other: Option<Damage>) -> Option<Damage>
    ensures { result ≡ least_of damage_number one other }
{
    match (one, other) {
        (None, _) => other,
        (Some(_), None) => one,
        (Some(x), Some(y)) => Some(if y.block < x.block { y } else { x }),
    }
}

/// The header of the lesser block.
pub(crate) fn least_header(one: Option<HeaderAt>, other: Option<HeaderAt>) -> Option<HeaderAt>
    ensures { result ≡ least_of header_number one other }
{
    match (one, other) {
        (None, _) => other,
        (Some(_), None) => one,
        (Some(x), Some(y)) => Some(if y.no < x.no { y } else { x }),
    }
}
