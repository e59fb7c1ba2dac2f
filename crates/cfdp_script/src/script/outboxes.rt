//! The files that a script gives its stations to send.
ghost use Rattle.std.specs.Prelude.{◌≡◌, IfOk, OnOk};
ghost use Rattle.station_pair.specs.declared.side.Side.TheVariants as sides;
ghost use Rattle.cfdp_script.specs.Script.Outboxes.{octets_of, outbox_of, with_file};

use crate::script::command::{Contents, FileLine};
use cfdp_store::Files;
use link_sim::Side;
use std::alloc::{AllocError, Global};

/// Returns the files of both stations, those of station 1 first. A file takes the place of an
/// earlier one of its name.
///
/// # Errors
///
/// `AllocError` if there is no memory for them.
pub fn outboxes(alloc: Global, files: &[FileLine]) -> Result<(Files, Files), AllocError>
    ensures one { IfOk result (λ both. both.0 ≡ outbox_of sides.One files.now) }
    ensures two { IfOk result (λ both. both.1 ≡ outbox_of sides.Two files.now) }
{
    let mut one = Files::new(alloc);
    let mut two = Files::new(alloc);
    for file in files {
        add_file(alloc, file, &mut one, &mut two)?;
    }
    Ok((one, two))
}

/// Puts a file among those of its station.
fn add_file(
    alloc: Global,
    file: &FileLine,
    one: &mut Files,
    two: &mut Files,
) -> Result<(), AllocError>
    ensures one { OnOk result (one.new ≡ with_file sides.One file.now.at file.now one.old) }
    ensures two { OnOk result (two.new ≡ with_file sides.Two file.now.at file.now two.old) }
{
    let name = Vec::from_slice(alloc, file.name.as_slice())?;
    let octets = contents_of(alloc, &file.contents)?;
    match file.at {
        Side::One => one.insert(name, octets),
        Side::Two => two.insert(name, octets),
    }
}

/// Returns the octets of a file.
fn contents_of(alloc: Global, contents: &Contents) -> Result<Vec<u8>, AllocError>
    ensures { IfOk result (λ octets. octets.items ≡ octets_of contents.now) }
{
    match contents {
        Contents::Text(text) => Vec::from_slice(alloc, text.as_slice()),
        Contents::Fill { count, octet } => vec![in alloc; *octet; *count as usize],
    }
}
