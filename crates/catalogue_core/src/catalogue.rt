//! The images of the last checkpoints.
ghost use Rattle.std.specs.Prelude.{◌≡◌, ◌++◌, ◌∷◌, [], find, length, map, reverse, option_map, IfOk};
ghost use Rattle.std.specs.Arc.{arc_value};
ghost use Rattle.std.specs.Option.{option_copied};
ghost use Rattle.catalogue_core.specs.Kept.{last_eight, pushed_out, bears, newest, number_and_point};

use base_core::{Moment, NoMemory};
use capture_core::Image;
use circular_buffer::HeapCircularBuffer;
use std::alloc::Global;
use std::marker::Model;
use std::sync::Arc;

/// How many images are kept.
const KEPT: usize = 8;

/// The images of the last eight checkpoints that were finished. Contracts see the list of them, the
/// oldest first.
#[derive(Drop)]
pub struct Catalogue {
    alloc: Global,
    images: HeapCircularBuffer<Arc<Image>>,
}

impl Model for Catalogue {
    ghost use Rattle.std.specs.Prelude.{List, map, ◌≡◌};
    ghost use Rattle.std.specs.Arc.{arc_value};
    ghost use Rattle.capture_core.specs.declared.image.Image.{Image};

    ghost Value = { List Image };

    ghost view = { λ c. map arc_value c.images.items };

    ghost invariant = { λ c. c.images.capacity ≡ 8 };
}

fn bears(image: &Arc<Image>, number: u64) -> bool
    ensures { result ≡ bears number (arc_value image.now) }
{
    image.number == number
}

fn newest(images: &HeapCircularBuffer<Arc<Image>>, number: u64) -> Option<&Arc<Image>>
    ensures { option_copied result
        ≡ find (λ arc. bears number (arc_value arc)) (reverse images.now.items) }
{
    images.iter().rev().find(|image| bears(*image, number))
}

fn entry(image: &Arc<Image>) -> (u64, Moment)
    ensures { result ≡ number_and_point (arc_value image.now) }
{
    (image.number, image.point)
}

fn entries(
    alloc: Global,
    images: &HeapCircularBuffer<Arc<Image>>,
) -> Result<Vec<(u64, Moment)>, NoMemory>
    ensures { IfOk result
        (λ listed. listed.items ≡ map (λ arc. number_and_point (arc_value arc)) images.now.items) }
{
    let listed = images.iter().map(entry).collect(alloc)?;
    Ok(listed)
}

impl Catalogue {
    /// No images, and room for eight. `NoMemory` where a request for memory was refused.
    pub fn new(alloc: Global) -> Result<Catalogue, NoMemory>
        ensures { IfOk result (λ catalogue. catalogue ≡ []) }
    {
        let images = HeapCircularBuffer::with_capacity(alloc, KEPT)?;
        Ok(Catalogue { alloc, images })
    }

    /// How many images are kept, eight at most.
    pub fn len(&self) -> usize
        ensures { result ≡ length self.now }
    {
        self.images.len()
    }

    /// Adds an image, as the newest. Where there are eight, the oldest is pushed out and handed
    /// back; else the answer is None. It takes no memory.
    pub fn add(&mut self, image: Arc<Image>) -> Option<Arc<Image>>
        ensures kept { self.new ≡ last_eight (self.old ++ arc_value image ∷ []) }
        ensures pushed_out { option_map arc_value result ≡ pushed_out self.old }
    {
        self.images.push_back(image)
    }

    /// The newest image of this checkpoint number among those kept. None where none of them has it.
    /// It takes no memory.
    pub fn find(&self, number: u64) -> Option<&Arc<Image>>
        ensures { option_map arc_value (option_copied result) ≡ newest self.now number }
    {
        newest(&self.images, number)
    }

    /// The checkpoint number and the point of each image, the oldest first. `NoMemory` where a
    /// request for memory was refused.
    pub fn list(&self) -> Result<Vec<(u64, Moment)>, NoMemory>
        ensures { IfOk result (λ listed. listed.items ≡ map number_and_point self.now) }
    {
        entries(self.alloc, &self.images)
    }
}
