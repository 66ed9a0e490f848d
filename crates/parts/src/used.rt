// How many slots of an array are in use. A state made by hand may claim more than there are.
ghost use Rattle.std.specs.Prelude.{◌≡◌, min};

pub fn used(len: u8, slots: usize) -> usize
    ensures { result ≡ min len slots }
{
    slots.min(usize::from(len))
}
