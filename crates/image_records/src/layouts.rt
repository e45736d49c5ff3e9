ghost use Rattle.filesystem.specs.Layouts.{IsLayout};

// How an image's records are laid out (SPECIFICATION 8.4): the bytes of an id, and those of a record's maker, 0 or 1.
#[derive(Clone, Copy)]
pub struct Layout {
    pub id_bytes: usize,
    pub maker_bytes: usize,
    pub ghost is_layout: { IsLayout id_bytes maker_bytes },
}
