ghost use Rattle.std.specs.Prelude.{◌≡◌, ◌++◌, IfOk, OnOk};
ghost use Rattle.slice_text.specs.SlicesText.{bands_line, corner_line, corners_text, height_line, slices_text, zone_line, zones_text};

use decimal_lengths::write_um;
use seq_model::{Object, Spot, Zone};
use std::alloc::{AllocError, Global};
use text_lines::{put_line, put_number};

// Appends the line of a height in µm, told in mm.
#[tactic(auto, unfolding(crate::specs::SlicesText::height_line))]
fn put_height(to: &mut Vec<u8>, height: i64) -> Result<(), AllocError>
    ensures { OnOk result (to.new.items ≡ to.old.items ++ height_line height) }
{
    let mut digits = [0; 24];
    let len = write_um(height, &mut digits);
    to.extend_from_slice(b"height ")?;
    to.extend_from_slice(&digits[..len])?;
    to.extend_from_slice(b"\n")
}

// Appends the line of the number of bands.
#[tactic(auto, unfolding(crate::specs::SlicesText::bands_line))]
fn put_bands(to: &mut Vec<u8>, bands: u32) -> Result<(), AllocError>
    ensures { OnOk result (to.new.items ≡ to.old.items ++ bands_line bands) }
{
    put_line(to, b"bands ", i128::from(bands))
}

fn put_corner(to: &mut Vec<u8>, corner: &Spot) -> Result<(), AllocError>
    ensures { OnOk result (to.new.items ≡ to.old.items ++ corner_line corner.now) }
{
    put_number(to, b"corner ", i128::from(corner.x))?;
    put_line(to, b" ", i128::from(corner.y))
}

fn put_corners(to: &mut Vec<u8>, corners: &[Spot]) -> Result<(), AllocError>
    ensures { OnOk result (to.new.items ≡ to.old.items ++ corners_text corners.now) }
{
    for corner in corners {
        put_corner(to, corner)?;
    }
    Ok(())
}

// Appends the line of a zone: its first and its last band, and the number of its corners.
fn put_zone_line(to: &mut Vec<u8>, zone: &Zone) -> Result<(), AllocError>
    ensures { OnOk result (to.new.items ≡ to.old.items ++ zone_line zone.now) }
{
    put_number(to, b"zone ", i128::from(zone.first))?;
    put_number(to, b" ", i128::from(zone.last))?;
    put_line(to, b" ", zone.corners.len() as i128)
}

fn put_zone(to: &mut Vec<u8>, zone: &Zone) -> Result<(), AllocError>
    ensures { OnOk result (to.new.items
        ≡ to.old.items ++ (zone_line zone.now ++ corners_text zone.now.corners)) }
{
    put_zone_line(to, zone)?;
    put_corners(to, zone.corners.as_slice())
}

fn put_zones(to: &mut Vec<u8>, zones: &[Zone]) -> Result<(), AllocError>
    ensures { OnOk result (to.new.items ≡ to.old.items ++ zones_text zones.now) }
{
    for zone in zones {
        put_zone(to, zone)?;
    }
    Ok(())
}

/// The text of an object's bands and zones.
pub fn slices_text(alloc: Global, object: &Object) -> Result<Vec<u8>, AllocError>
    ensures { IfOk result (λ text. text.items ≡ slices_text object.now) }
{
    let mut text = Vec::from_slice(alloc, b"slices 1\n")?;
    put_height(&mut text, object.height)?;
    put_bands(&mut text, object.bands)?;
    put_zones(&mut text, object.zones.as_slice())?;
    Ok(text)
}
