ghost use Rattle.std.specs.Prelude.{◌≡◌};
ghost use Rattle.fetch_steps.specs.Fetch.{may_hold_at};
ghost use Rattle.fetch_steps.specs.Places.{first_place, place_granted, place_seen, place_moved, place_lost, place_cleaned, place_registered, place_with_copy, place_under_x};

use message_network::Seen;

/// Where a fetch stands: the act that is next, and how it came there.
#[derive(Clone, Copy, Debug, PartialEq, Eq)]
pub(crate) enum Place {
    Register,
    LatchS,
    /// Holds S.
    Look,
    /// Holds S and saw bit 0.
    Read,
    /// Holds S and saw bit 1.
    ReleaseS,
    LatchX,
    /// Holds X.
    LookAgain,
    /// Holds X and saw bit 0: S takes its place.
    BackToS,
    /// Holds S, and saw bit 0 under X.
    LookBack,
    /// Holds X and saw bit 1.
    Get,
    Write,
    Clean,
    /// Holds X of a page that is clean: S takes its place.
    LastS,
    /// Finished, and holds S.
    Held,
    /// Holds the latch of a page whose address is to be forgotten.
    ReleaseDown,
    /// Given up, and may hold a latch.
    ReleaseEnd,
    /// Finished or given up, and holds no latch.
    Done,
    // The RW's alone.
    RwLook,
    RwRead,
    /// Holds X and saw bit 0.
    RwBack,
    /// Saw bit 0 under X, and let it go.
    RwLookBack,
    /// Holds X of a page that is clean.
    RwEnd,
}

impl Place {
    /// The first place of a page with an address.
    pub(crate) fn first(writer: bool) -> Place
        ensures { result ≡ first_place writer }
    {
        if writer { Place::RwLook } else { Place::LatchS }
    }

    /// Whether a latch is held, or its last try was lost or unseen.
    pub(crate) fn may_hold(self, unheard: bool) -> bool
        ensures { result ≡ may_hold_at self unheard }
    {
        match self {
            Place::LatchS | Place::LatchX => unheard,
            Place::Register | Place::Done => false,
            Place::RwLook | Place::RwRead | Place::RwLookBack => false,
            _ => true,
        }
    }

    /// The place after a try that was granted, or a release that was made.
    pub(crate) fn granted(self) -> Place
        ensures { result ≡ place_granted self }
    {
        match self {
            Place::LatchS => Place::Look,
            Place::BackToS => Place::LookBack,
            Place::LastS => Place::Held,
            Place::ReleaseS => Place::LatchX,
            Place::LatchX => Place::LookAgain,
            Place::ReleaseDown => Place::Register,
            Place::ReleaseEnd => Place::Done,
            Place::RwBack => Place::RwLookBack,
            Place::RwEnd => Place::Done,
            place => place,
        }
    }

    /// The place after a look that shows this.
    pub(crate) fn seen(self, writer: bool, seen: &Seen) -> Place
        ensures { result ≡ place_seen writer seen.now self }
    {
        match self {
            Place::Look | Place::LookBack if seen.bit => Place::ReleaseS,
            Place::Look | Place::LookBack => Place::Read,
            Place::RwLook | Place::RwLookBack if seen.bit => Place::LatchX,
            Place::RwLook | Place::RwLookBack => Place::RwRead,
            Place::LookAgain => under_x(writer, seen),
            place => place,
        }
    }

    /// The place after a read or a write that was made.
    pub(crate) fn moved(self) -> Place
        ensures { result ≡ place_moved self }
    {
        match self {
            Place::Read => Place::Held,
            Place::RwRead => Place::Done,
            Place::Write => Place::Clean,
            place => place,
        }
    }

    /// The place after an access to a slab that is down, or has another incarnation.
    pub(crate) fn lost(self) -> Place
        ensures { result ≡ place_lost self }
    {
        match self {
            Place::Read | Place::Write | Place::Clean => Place::ReleaseDown,
            Place::RwRead => Place::Register,
            place => place,
        }
    }

    /// The place after a clean, of a page that has an entry or not.
    pub(crate) fn cleaned(self, writer: bool, there: bool) -> Place
        ensures { result ≡ place_cleaned writer there self }
    {
        match self {
            Place::Clean => {
                if !there {
                    Place::ReleaseDown
                } else if writer {
                    Place::RwEnd
                } else {
                    Place::LastS
                }
            }
            place => place,
        }
    }

    /// The place after the page was registered.
    pub(crate) fn registered(self, writer: bool) -> Place
        ensures { result ≡ place_registered writer self }
    {
        match self {
            Place::Register => Place::first(writer),
            place => place,
        }
    }

    /// The place where the node has a copy that it may use.
    pub(crate) fn with_copy(self) -> Place
        ensures { result ≡ place_with_copy self }
    {
        match self {
            Place::Look | Place::LookBack => Place::Held,
            Place::RwLook | Place::RwLookBack => Place::Done,
            place => place,
        }
    }
}

/// The place after the second look, which is made under X.
fn under_x(writer: bool, seen: &Seen) -> Place
    ensures { result ≡ place_under_x writer seen.now.bit seen.now.addr }
{
    if seen.addr.is_none() {
        Place::ReleaseDown
    } else if seen.bit {
        Place::Get
    } else if writer {
        Place::RwBack
    } else {
        Place::BackToS
    }
}
