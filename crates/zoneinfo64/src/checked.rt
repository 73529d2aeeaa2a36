//! The zones of a bundle, each checked once.
ghost use Rattle.std.specs.Prelude.{◌≡◌, ◌<◌, length, IfOk, IfSome, Some, slice_get};
ghost use Rattle.zoneinfo64.specs.NamedZone.{zone_at};
ghost use Rattle.zoneinfo64.specs.CheckedZone.{IsChecked};
ghost use Rattle.zoneinfo64.specs.Inside.Verdicts.{IsVerdict, AreVerdicts};

use crate::zone::{Zone, ZoneInfo64};
use std::alloc::{AllocError, Global};
use std::cell::Cell;
use std::marker::{Brand, Model};
use std::sync::ledger::{Blank, Ledger};
use steps::Steps;
use timeline::{ZoneData, ZoneFault};

/// The zones of a bundle with the checker's verdict on each, seen as their list.
///
/// Each zone is checked when this is made, and never again. The zone that was asked for last is looked at first, so that
/// lines of one zone find it at once.
#[derive(Drop)]
pub struct CheckedZones {
    zones: ZoneInfo64,
    verdicts: Vec<Option<ZoneFault>>,
    /// The place of the zone that was asked for last.
    last: Cell<usize>,
}

impl Model for CheckedZones {
    ghost use Rattle.std.specs.Prelude.{List};
    ghost use Rattle.zoneinfo64.specs.NamedZone.{NamedZone};
    ghost use Rattle.zoneinfo64.specs.Inside.Verdicts.{AreVerdicts};

    ghost Value = { List NamedZone };

    ghost view = { λ a. a.zones };

    ghost invariant = { λ a. AreVerdicts a.zones a.verdicts.items };
}

// The least law that a zone breaks; the steps go to the caller's ledger.
fn verdict_by<L: Ledger>(zone: &ZoneData, blank: Blank) -> Option<ZoneFault>
    requires name { blank.name ≡ L.name }
    requires parts { blank.parts ≡ L.parts }
    requires some { 0 < L.parts }
    ensures { IsVerdict zone.now result }
{
    let mut steps = Steps::<L>::new(blank);
    match zone.check(&mut steps) {
        Ok(()) => None,
        Err(fault) => Some(fault),
    }
}

// The same, where no step is counted.
fn verdict(zone: &ZoneData) -> Option<ZoneFault>
    ensures { IsVerdict zone.now result }
{
    verdict_by::<Brand>(zone, Blank::new(1))
}

// The verdict on what stands at a place.
fn verdict_at(zones: &ZoneInfo64, place: usize) -> Option<ZoneFault>
    requires { place < length zones.now }
    ensures { IfSome (zone_at zones.now place) (λ z. IsVerdict z result) }
{
    match zones.data_at(place) {
        Some(data) => verdict(data),
        None => None,
    }
}

// The verdict at a place.
fn verdict_in(verdicts: &[Option<ZoneFault>], place: usize) -> Option<ZoneFault>
    requires { place < length verdicts.now }
    ensures { slice_get verdicts.now place ≡ Some result }
{
    verdicts[place]
}

impl CheckedZones {
    /// Checks each zone of a bundle. `Err` is want of memory alone.
    pub fn new(alloc: Global, zones: ZoneInfo64) -> Result<CheckedZones, AllocError>
        ensures { IfOk result (λ checked. checked ≡ zones) }
    {
        let mut verdicts = Vec::with_capacity(alloc, zones.len())?;
        for place in 0..zones.len() {
            verdicts.push(verdict_at(&zones, place))?;
        }
        Ok(CheckedZones {
            zones,
            verdicts,
            last: Cell::new(0),
        })
    }

    /// The zone of that name, an IANA identifier, or the least law that it breaks; `None` exactly where no name equals it.
    ///
    /// An alias has the verdict on the zone that it stands for. Takes no memory.
    pub fn get(&self, iana: &str) -> Option<Result<Zone<'_>, ZoneFault>>
        ensures { IsChecked self.now iana.now result }
    {
        let zone = self.zones.get_near(iana, self.last.get())?;
        self.last.set(zone.own_place());
        match verdict_in(self.verdicts.as_slice(), zone.data_place()) {
            None => Some(Ok(zone)),
            Some(fault) => Some(Err(fault)),
        }
    }
}
