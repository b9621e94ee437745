ghost use Rattle.std.specs.Prelude.{◌≡◌};
ghost use Rattle.paged_tables.specs.Items.{live_item};

use page_view::LeafItem;
use rm_base::{Bytes, Items, TrxId, UndoPtr};

/// Items in the order of their keys.
pub(crate) type LeafItems = Items<LeafItem>;

/// An item that is not deleted, of no transaction, with no older version.
pub(crate) fn live_item(key: Bytes, value: Bytes) -> LeafItem
    ensures { result ≡ live_item key value }
{
    LeafItem {
        key,
        deleted: false,
        trx: TrxId::new(0),
        older: UndoPtr { page: 0, slot: 0 },
        value,
    }
}
