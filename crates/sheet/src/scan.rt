// The scan of a sheet: its records one after the other, up to and with the end. Nothing is written.
ghost use Rattle.std.specs.Prelude.{◌≡◌, ◌≤◌, ◌<◌, length};
ghost use Rattle.board.specs.Limits.{max_height};
ghost use Rattle.sheet.specs.Scan.{place_after, start_place, scanned_of, scan_of, Stepped};

use crate::{MAX_SHEET, RefusedAt};
use records::kind::Stage;
use records::record::{Record, Recorded, record_at};
use refusal::Refusal;

// What a scan says: the height and the number of joint records.
#[derive(Clone, Copy)]
pub(crate) struct Scanned {
    pub height: u32,
    pub joints: usize,
}

// How far a sheet is read: the offset of the next record, and what those before it give.
#[derive(Clone, Copy)]
pub(crate) struct Place {
    pub at: usize,
    pub stage: Stage,
    pub height: u32,
    pub joints: usize,
}

// The start of a sheet.
fn start() -> Place
    ensures { result ≡ start_place }
{
    Place {
        at: 0,
        stage: Stage::Start,
        height: 0,
        joints: 0,
    }
}

// The place after a record.
#[tactic(auto, unfolding(crate::specs::Scan::place_after, records::specs::Records::kind_in, crate::specs::Sheet::height_after, crate::specs::Sheet::cell_in))]
fn after(place: Place, read: Recorded) -> Place
    requires { place.joints < read.next }
    ensures { result ≡ place_after place read.record read.next }
{
    let at = read.next;
    match read.record {
        Record::Board { height } => Place {
            at,
            stage: Stage::Joints,
            height,
            ..place
        },
        Record::Joint { .. } => Place {
            at,
            stage: Stage::Joints,
            joints: place.joints + 1,
            ..place
        },
        Record::Question { .. } | Record::Window { .. } | Record::End => Place {
            at,
            stage: Stage::Requests,
            ..place
        },
    }
}

// One record: the place after it, or none after the end, which no byte may follow.
#[tactic(auto, using(crate::proofs::Scanning::stepped_end, crate::proofs::Scanning::stepped_more, crate::proofs::Scanning::stepped_on, crate::proofs::Scanning::next_is))]
fn step(sheet: &[u8], place: Place) -> Result<Option<Place>, RefusedAt>
    requires { (place.at < length sheet.now) × (place.height ≤ max_height) × (place.joints ≤ place.at) }
    ensures { Stepped sheet.now place result }
{
    let read = record_at(sheet, place.at, place.stage, place.height).map_err(
        |refusal| RefusedAt {
            refusal,
            offset: place.at,
        },
    )?;
    match read.record {
        Record::End if read.next == sheet.len() => Ok(None),
        Record::End => Err(RefusedAt {
            refusal: Refusal::End,
            offset: read.next,
        }),
        _ => Ok(Some(after(place, read))),
    }
}

// The scan of any bytes.
#[tactic(auto, using(crate::proofs::Scanning::scanning_start, crate::proofs::Scanning::scan_too_long, crate::proofs::Scanning::scanning_on), unfolding(crate::specs::Sheet::max_sheet))]
pub(crate) fn scan(sheet: &[u8]) -> Result<Scanned, RefusedAt>
    ensures { scanned_of result ≡ scan_of sheet.now }
{
    if MAX_SHEET < sheet.len() {
        return Err(RefusedAt::whole(Refusal::SheetLength));
    }
    let mut place = start();
    while place.at < sheet.len() {
        match step(sheet, place)? {
            Some(next) => place = next,
            None => {
                return Ok(Scanned {
                    height: place.height,
                    joints: place.joints,
                });
            }
        }
    }
    Err(RefusedAt {
        refusal: Refusal::End,
        offset: sheet.len(),
    })
}
