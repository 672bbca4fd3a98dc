// The scan for the first places of the components, and the labels of a section.
ghost use Rattle.std.specs.Prelude.{◌+◌, ◌<◌};
ghost use Rattle.picture.specs.Pictures.{places};
ghost use Rattle.geometry.specs.Rasters.{picture};
ghost use Rattle.labels.specs.Labels.{LabelReady, LabelsHold};
ghost use Rattle.labelling_laws.proofs.Labelled.{Labelled};

use floods::{flood, in_section};
use geometry::raster::Raster;

// Floods the component of the place x, if it begins there, with the number after c; answers the number of components that begin up to x.
fn label_place(
    raster: &Raster,
    k: u8,
    x: usize,
    c: u16,
    labels: &mut [u16],
    stack: &mut [u16],
) -> u16
    requires { LabelReady (picture raster.now) labels.old stack.old × Labelled (picture raster.now) k x c labels.old × (x < places (picture raster.now)) }
    ensures { Labelled (picture raster.now) k (x + 1) result labels.new }
{
    if !in_section(raster.pixels[x], k) || labels[x] != 0 {
        return c;
    }
    flood(raster, k, x, c + 1, labels, stack);
    c + 1
}

// The labels of the section at height k; answers the number of its components.
pub fn label(raster: &Raster, k: u8, labels: &mut [u16], stack: &mut [u16]) -> u16
    requires { LabelReady (picture raster.now) labels.old stack.old }
    ensures { LabelsHold (picture raster.now) k result labels.new }
{
    labels.fill(0);
    let mut c: u16 = 0;
    for x in 0..raster.pixels.len() {
        c = label_place(raster, k, x, c, labels, stack);
    }
    c
}
