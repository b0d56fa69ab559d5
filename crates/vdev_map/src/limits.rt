ghost use Rattle.std.specs.Prelude.{OnOk, IfErr};
ghost use Rattle.vdev_map.specs.Limits.{IsLayout, IsFirstFault, AreNumbers, AreRows};

use crate::{Layout, LayoutFault, rows};

/// Whether a layout is within the limits, and else the first that it passes. Linear in the vdevs.
pub fn check(layout: &Layout) -> Result<(), LayoutFault>
    ensures ok { OnOk result (IsLayout layout.now) }
    ensures err { IfErr result (IsFirstFault layout.now) }
{
    check_numbers(layout)?;
    check_rows(layout)?;
    check_totals(layout)
}

/// The limits on numbers that stand alone.
fn check_numbers(layout: &Layout) -> Result<(), LayoutFault>
    ensures ok { OnOk result (AreNumbers layout.now) }
    ensures err { IfErr result (IsFirstFault layout.now) }
{
    if layout.flush < 2 || layout.flush > 32 {
        return Err(LayoutFault::Flush);
    }
    if layout.log < 64 || layout.log > 65_536 {
        return Err(LayoutFault::Log);
    }
    if layout.vdevs.is_empty() || layout.vdevs.len() > 16 {
        return Err(LayoutFault::Vdevs);
    }
    Ok(())
}

/// The limits on each vdev.
fn check_rows(layout: &Layout) -> Result<(), LayoutFault>
    requires numbers { AreNumbers layout.now }
    ensures ok { OnOk result (AreRows layout.now.vdevs) }
    ensures err { IfErr result (IsFirstFault layout.now) }
{
    let vdevs = layout.vdevs.as_slice();
    if let Some(vdev) = rows::first_bad_shift(vdevs) {
        return Err(LayoutFault::Ashift { vdev });
    }
    if let Some(vdev) = rows::first_bad_units(vdevs) {
        return Err(LayoutFault::Units { vdev });
    }
    if let Some(vdev) = rows::first_without_metaslabs(vdevs) {
        return Err(LayoutFault::Metaslabs { vdev });
    }
    Ok(())
}

/// The limits on all vdevs together.
fn check_totals(layout: &Layout) -> Result<(), LayoutFault>
    requires numbers { AreNumbers layout.now }
    requires rows { AreRows layout.now.vdevs }
    ensures ok { OnOk result (IsLayout layout.now) }
    ensures err { IfErr result (IsFirstFault layout.now) }
{
    let vdevs = layout.vdevs.as_slice();
    if rows::units_in(vdevs) > 4_194_304 {
        return Err(LayoutFault::TotalUnits);
    }
    if rows::metaslabs_in(vdevs) > 1024 {
        return Err(LayoutFault::TotalMetaslabs);
    }
    if !rows::has_normal(vdevs) {
        return Err(LayoutFault::NoNormal);
    }
    Ok(())
}
