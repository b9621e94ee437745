ghost use Rattle.std.specs.Prelude.{◌≡◌, ◌≤◌, ◌<◌, ◌+◌, ◌++◌, ◌⊎◌, ℕ, List, [], ◌∷◌, length, false};
ghost use Rattle.rm_base.specs.Fields.{AreBytes};
ghost use Rattle.page_image.specs.Image.{Image, unmade};
ghost use Rattle.redo_record.specs.declared.redo.Group.{Group};
ghost use Rattle.redo_record.specs.Spelling.{group_bytes, log_bytes, IsGroup, IsLog, Spells, BeginsWith};
ghost use Rattle.redo_record.specs.Refusal.{BeginsNoGroup, IsRefusedAt};
ghost use Rattle.redo_record.specs.Effect.{after_records, after_groups, up_to, page_at, merged, last, changes, ArePast, AreUpTo, LeaveAlone, Ascends, CountsFrom, GroupsApply};

/// The laws of the redo grammar. It does nothing when it is run.
pub fn grammar_laws()
    // Bytes are the spelling of at most one list of groups, and no group's spelling begins that of another.
    ensures one_list { (bytes : List ℕ) (gs hs : List Group) → Spells bytes gs → Spells bytes hs → gs ≡ hs }
    ensures no_prefix { (g h : Group) (x y : List ℕ) → IsGroup g → IsGroup h
        → group_bytes g ++ x ≡ group_bytes h ++ y → (g ≡ h) × (x ≡ y) }
    ensures begins { (gs hs : List Group) (x : List ℕ) → IsLog gs → IsLog hs → log_bytes gs ++ x ≡ log_bytes hs
        → (more : List Group) × (hs ≡ gs ++ more) × (x ≡ log_bytes more) }
    ensures grows { (bytes : List ℕ) (gs : List Group) (g : Group) → Spells bytes gs → IsGroup g
        → Spells (bytes ++ group_bytes g) (gs ++ g ∷ []) }

    // Bytes begin with a group or are refused, not both, and at one offset.
    ensures either_way { (bytes : List ℕ) → AreBytes bytes
        → ((g : Group) × (n : ℕ) × BeginsWith bytes g n) ⊎ ((at : ℕ) × IsRefusedAt bytes at) }
    ensures not_both { (bytes : List ℕ) (at : ℕ) → AreBytes bytes → IsRefusedAt bytes at → BeginsNoGroup bytes }
    ensures one_offset { (bytes : List ℕ) (m n : ℕ) → AreBytes bytes → IsRefusedAt bytes m → IsRefusedAt bytes n → m ≡ n }
{}

/// The laws of the page that a log leaves. It does nothing when it is run.
pub fn fold_laws()
    // A log that goes on.
    ensures joined { (gs hs : List Group) (p n : ℕ) → page_at (gs ++ hs) p n ≡ after_groups (up_to n hs) (page_at gs p n) }
    ensures later { (gs hs : List Group) (p n : ℕ) → ArePast n hs → page_at (gs ++ hs) p n ≡ page_at gs p n }
    ensures one_more { (gs : List Group) (g : Group) (p n : ℕ) → g.lsn ≤ n
        → page_at (gs ++ g ∷ []) p n ≡ after_records g.lsn g.records (page_at gs p n) }

    // From its end on a log is folded whole.
    ensures whole { (gs : List Group) (p n : ℕ) → AreUpTo n gs → page_at gs p n ≡ after_groups gs (unmade p) }
    ensures counted { (n m : ℕ) (gs : List Group) → n + length gs ≤ m → CountsFrom n gs → AreUpTo m gs }
    ensures ascends { (n : ℕ) (gs : List Group) → CountsFrom n gs → Ascends n gs }
    ensures counts_on { (n : ℕ) (gs hs : List Group) → CountsFrom n gs → CountsFrom (n + length gs) hs → CountsFrom n (gs ++ hs) }

    // The page keeps its number, has the LSN of the last group with a record for it, and no other changes it.
    ensures page { (gs : List Group) (p n : ℕ) → (page_at gs p n).page ≡ p }
    ensures lsn { (gs : List Group) (p n : ℕ) → (page_at gs p n).lsn ≡ last (up_to n gs) p }
    ensures bound { (gs : List Group) (p n : ℕ) → (page_at gs p n).lsn ≤ n }
    ensures alone { (gs : List Group) (im : Image) → LeaveAlone im.page gs → after_groups gs im ≡ im }

    // Records that apply in order, in a log that goes on.
    ensures apply_both { (gs hs : List Group) (im : Image) → GroupsApply gs im → GroupsApply hs (after_groups gs im)
        → GroupsApply (gs ++ hs) im }
    ensures apply_first { (gs hs : List Group) (im : Image) → GroupsApply (gs ++ hs) im → GroupsApply gs im }
    ensures apply_rest { (gs hs : List Group) (im : Image) → GroupsApply (gs ++ hs) im → GroupsApply hs (after_groups gs im) }

    // A base image brought up to an LSN by the groups past its own is what the whole log leaves there.
    ensures based { (gs : List Group) (p m n : ℕ) → Ascends 0 gs → m ≤ n → merged (page_at gs p m) gs n ≡ page_at gs p n }
{}
