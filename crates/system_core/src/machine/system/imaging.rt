//! The images that are kept.
ghost use Rattle.std.specs.Prelude.{option_map, IfOk};
ghost use Rattle.std.specs.Arc.{arc_value};
ghost use Rattle.capture_core.specs.declared.image.Image.{Image};
ghost use Rattle.system_core.specs.Imaging.{IsKeptImage};

use crate::machine::system::System;
use base_core::NoMemory;
use capture_core::Image;
use std::sync::Arc;

impl System {
    /// The image of this checkpoint, shared, if it is kept: the tables with their rows, and the grants in force,
    /// as they were at its point. It copies nothing. `NoMemory` where it could not be shared once more.
    pub fn image(&self, number: u64) -> Result<Option<Arc<Image>>, NoMemory>
        ensures { IfOk result
            (λ found. IsKeptImage self.now number (option_map (arc_value {X = Image}) found)) }
    {
        match self.catalogue.find(number) {
            Some(image) => Ok(Some(image.clone()?)),
            None => Ok(None),
        }
    }
}
