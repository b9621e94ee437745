ghost use Rattle.std.specs.Prelude.{◌≡◌, ◌<◌, ◌*◌, drop, SomeIff};
ghost use Rattle.rm_base.specs.Fields.{number};
ghost use Rattle.page_view.specs.Views.{IsViewOf};

use page_image::{Kind, Page};
use rm_base::{PAGE_HEADER_BYTES, STAMPS_PER_PAGE, Stamp, get_u64};
use std::marker::Model;

/// The stamps of a page.
#[derive(Debug, Drop)]
pub struct StampView<'a> {
    page: &'a Page,
}

impl<'a> Model for StampView<'a> {
    ghost use Rattle.page_image.specs.Image.{Image};

    ghost Value = { Image };

    ghost view = { λ stamps. stamps.page.now };

    ghost use Rattle.std.specs.Prelude.{◌≡◌};
    ghost use Rattle.page_image.specs.declared.kind.Kind.TheVariants.{Stamps};

    ghost invariant = { λ stamps. stamps.page.now.kind ≡ Stamps };
}

impl<'a> StampView<'a> {
    /// None exactly where the page holds no stamps.
    pub fn over(page: &'a Page) -> Option<StampView<'a>>
        ensures { IsViewOf Kind.Stamps page.now result }
    {
        if page.kind() != Kind::Stamps {
            return None;
        }
        Some(StampView { page })
    }

    /// The stamp at place i, 0 where its transaction is not committed. None exactly from place 508 on.
    pub fn stamp(&self, i: usize) -> Option<Stamp>
        ensures { SomeIff result (i < STAMPS_PER_PAGE) (number 8 (drop (8 * i) self.now.body)) }
    {
        if i >= STAMPS_PER_PAGE {
            return None;
        }
        Some(Stamp::new(get_u64(self.page.bytes(), PAGE_HEADER_BYTES + 8 * i)))
    }
}
