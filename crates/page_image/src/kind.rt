ghost use Rattle.std.specs.Prelude.{◌≡◌, ◌≤◌, SomeIff, IsTrue};
ghost use Rattle.page_image.specs.Image.{kind_number, kind_with, is_slotted, has_body};

/// What a page is. Leaf, inner and undo pages hold items, the others fields.
#[derive(Clone, Copy, Debug, PartialEq, Eq)]
pub enum Kind {
    Unmade,
    Meta,
    Slots,
    Stamps,
    Leaf,
    Inner,
    Undo,
}

impl Kind {
    /// The number that stands for the kind in pages and in redo.
    pub fn number(self) -> u8
        ensures value { result ≡ kind_number self }
        ensures bound { result ≤ 6 }
    {
        match self {
            Kind::Unmade => 0,
            Kind::Meta => 1,
            Kind::Slots => 2,
            Kind::Stamps => 3,
            Kind::Leaf => 4,
            Kind::Inner => 5,
            Kind::Undo => 6,
        }
    }

    /// None past 6.
    pub fn from_number(n: u8) -> Option<Kind>
        ensures { SomeIff result (n ≤ 6) (kind_with n) }
    {
        match n {
            0 => Some(Kind::Unmade),
            1 => Some(Kind::Meta),
            2 => Some(Kind::Slots),
            3 => Some(Kind::Stamps),
            4 => Some(Kind::Leaf),
            5 => Some(Kind::Inner),
            6 => Some(Kind::Undo),
            _ => None,
        }
    }

    /// Whether pages of this kind hold items.
    pub fn has_items(self) -> bool
        ensures { result ≡ is_slotted self }
    {
        matches!(self, Kind::Leaf | Kind::Inner | Kind::Undo)
    }

    /// Whether pages of this kind hold a body of fields.
    pub fn has_body(self) -> bool
        ensures { result ≡ has_body self }
    {
        matches!(self, Kind::Meta | Kind::Slots | Kind::Stamps)
    }
}
