//! The moment of a line's fields, in the zones of a bundle.
ghost use Rattle.std.specs.Prelude.{◌≡◌, ◌<◌, List, Some, IfSome, IfOk, IsSome};
ghost use Rattle.civil.specs.Clock.{IsWallSecond};
ghost use Rattle.zoneinfo64.specs.NamedZone.{NamedZone};
ghost use Rattle.zoneinfo64.specs.CheckedZone.{IsChecked};
ghost use Rattle.timeline.specs.Laws.{IsLawful};
ghost use Rattle.timeline.specs.Fault.{IsLeastBroken};
ghost use Rattle.zoneinfo64.specs.ZoneView.{plain_zone};
ghost use Rattle.std.specs.Prelude.{◌↔◌, IsOk, IfErr};
ghost use Rattle.tell.specs.Moments.{IsBase};
ghost use Rattle.tell.specs.Inside.FieldsView.{fields_view};
ghost use Rattle.tell.specs.Inside.MomentView.{Finds, FindsFrom, IsInCalendar, refusal};

use crate::below::laws_below;
use crate::fields::Fields;
use crate::moment::{Moment, is_base, moment_of};
use crate::told::TellError;
use std::marker::Brand;
use std::sync::ledger::{Blank, Ledger};
use zoneinfo64::{Steps, Zone, ZoneFault, ZoneInfo64};

// Whether the zone is lawful; the steps go to the caller's ledger.
fn verdict_by<L: Ledger>(zone: &Zone<'_>, blank: Blank) -> Result<(), ZoneFault>
    requires name { blank.name ≡ L.name }
    requires parts { blank.parts ≡ L.parts }
    requires some { 0 < L.parts }
    ensures lawful { IfSome (plain_zone zone.now) (λ z. IsOk result ↔ IsLawful z) }
    ensures err { IfSome (plain_zone zone.now) (λ z. IfErr result (IsLeastBroken z)) }
{
    let mut steps = Steps::<L>::new(blank);
    zone.check(&mut steps)
}

// Whether the zone is lawful, or the least law that it breaks.
fn verdict(zone: &Zone<'_>) -> Result<(), ZoneFault>
    ensures lawful { IfSome (plain_zone zone.now) (λ z. IsOk result ↔ IsLawful z) }
    ensures err { IfSome (plain_zone zone.now) (λ z. IfErr result (IsLeastBroken z)) }
{
    verdict_by::<Brand>(zone, Blank::new(1))
}

/// The zone of that name, or the least law that it breaks; none where no name equals it.
pub fn checked<'a>(zones: &'a ZoneInfo64, name: &str) -> Option<Result<Zone<'a>, ZoneFault>>
    ensures { IsChecked zones.now name.now result }
{
    let zone = zones.get(name)?;
    match verdict(&zone) {
        Ok(()) => Some(Ok(zone)),
        Err(fault) => Some(Err(fault)),
    }
}

// The moment that the phrase means in a lawful zone, or the first of the refusals that holds.
fn find_in(zone: Zone<'_>, fields: &Fields<'_>) -> Result<Moment, TellError>
    ensures found { IfSome (plain_zone zone.entry)
        (λ z. IsLawful z → FindsFrom z (fields_view fields.now) result) }
    ensures bound { IfOk result IsInCalendar }
    ensures base { IfOk result (λ m. IsBase fields.now.base) }
    ensures err { IfErr result (λ e. IsSome (refusal e)) }
{
    laws_below();
    if !is_base(fields.base) {
        return Err(TellError::BadBase);
    }
    match moment_of(zone, fields.base, fields.phrase, fields.dialect) {
        Ok(moment) => Ok(moment),
        Err(fault) => Err(TellError::Phrase(fault)),
    }
}

/// The moment that the phrase means in the zone from the base; else the first of the refusals that holds.
pub fn find(
    zone: Option<Result<Zone<'_>, ZoneFault>>,
    fields: &Fields<'_>,
) -> Result<Moment, TellError>
    ensures found { (zones : List NamedZone)
        → IsChecked zones (fields_view fields.now).zone zone.entry
        → Finds zones (fields_view fields.now) result }
    ensures bound { IfOk result IsInCalendar }
    ensures base { IfOk result (λ m. IsBase fields.now.base) }
    ensures err { IfErr result (λ e. IsSome (refusal e)) }
{
    let Some(zone) = zone else {
        return Err(TellError::UnknownZone);
    };
    match zone {
        Ok(zone) => find_in(zone, fields),
        Err(fault) => Err(TellError::Unlawful(fault)),
    }
}
