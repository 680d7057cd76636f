//! Laws of kinds of keys, of the encodings of row values, of the order of tags, and of bytes as
//! text.

ghost use Rattle.std.specs.Prelude.{◌≡◌, ◌≢◌, ◌↔◌, ◌<◌, ◌++◌, ℕ, List, IsTrue, Some, None, Ok, Err};
ghost use Rattle.std.specs.Prelude.{slice_index};
ghost use Rattle.system_keys.specs.declared.refusal.RowFault.{RowFault};
ghost use Rattle.system_keys.specs.declared.refusal.RowFault.TheVariants as faults;
ghost use Rattle.system_keys.specs.declared.kind.RowKind.{RowKind};
ghost use Rattle.system_keys.specs.declared.location.Location.{Location};
ghost use Rattle.system_keys.specs.declared.location.Location.TheVariants as locations;
ghost use Rattle.system_keys.specs.declared.tag.Tag.{Tag};
ghost use Rattle.system_keys.specs.Keys.{Key};
ghost use Rattle.system_keys.specs.Families.{kind_of, is_of_kind};
ghost use Rattle.system_keys.specs.Rows.{Servers, HaveSpelling, is_of_rows, key_servers_value};
ghost use Rattle.system_keys.specs.Rows.{servers_at, tag_value, tag_at, AreBytes};
ghost use Rattle.system_keys.specs.ListedTags.{ListedTags, listed_tags_value, tag_cmp, IsTagBelow};
ghost use Rattle.std.specs.declared.cmp.Ordering.TheVariants.{Less, Equal, Greater};
ghost use Rattle.system_keys.specs.Locations.{location_value, location_at, after_two_zeros};
ghost use Rattle.system_keys.specs.Locations.{HasValue};
ghost use Rattle.system_keys.specs.Text.{text_of, bytes_of};

/// Each key is of exactly one kind: the one whose own condition it meets.
pub fn one_kind_law()
    ensures { (key : Key) (kind : RowKind)
        → IsTrue (is_of_kind kind key) ↔ (kind_of key ≡ kind) }
{}

/// Each row value that names servers or one tag has one encoding: a value decodes only from the bytes
/// that it encodes to, and an encoded value decodes to itself. A keyServers value has only faults of
/// rows.
pub fn one_row_encoding_law()
    ensures servers_spelled { (bytes : List ℕ) (servers : Servers)
        → AreBytes bytes → servers_at bytes ≡ Ok servers
        → (key_servers_value servers ≡ bytes) × HaveSpelling servers }
    ensures servers_round_trip { (servers : Servers)
        → HaveSpelling servers → servers_at (key_servers_value servers) ≡ Ok servers }
    ensures servers_faults { (bytes : List ℕ) (fault : RowFault)
        → servers_at bytes ≡ Err fault → IsTrue (is_of_rows fault) }
    ensures tag_spelled { (bytes : List ℕ) (tag : Tag)
        → AreBytes bytes → tag_at bytes ≡ Ok tag → tag_value tag ≡ bytes }
    ensures tag_round_trip { (tag : Tag) → tag_at (tag_value tag) ≡ Ok tag }
{}

/// Each keyServers value, of either form, has one encoding, and no value has both forms. A value names
/// servers exactly if it decodes as one that names them, whatever the other form is, and one that does
/// not begin a list of tags has the faults of one that names servers. The faults of a keyServers value
/// are faults of rows, and its fault is the first from the front: unless bytes are missing, it stays,
/// whatever bytes follow.
pub fn one_location_encoding_law()
    ensures spelled { (bytes : List ℕ) (location : Location)
        → AreBytes bytes → location_at bytes ≡ Ok location
        → (location_value location ≡ bytes) × HasValue location }
    ensures round_trip { (location : Location)
        → HasValue location → location_at (location_value location) ≡ Ok location }
    ensures apart { (servers : Servers) (tags : ListedTags)
        → key_servers_value servers ≢ listed_tags_value tags }
    ensures servers { (bytes : List ℕ) (servers : Servers)
        → (location_at bytes ≡ Ok (locations.Servers servers)) ↔ (servers_at bytes ≡ Ok servers) }
    ensures servers_faults { (bytes : List ℕ) (fault : RowFault)
        → after_two_zeros bytes ≡ None
        → (location_at bytes ≡ Err fault) ↔ (servers_at bytes ≡ Err fault) }
    ensures faults { (bytes : List ℕ) (fault : RowFault)
        → location_at bytes ≡ Err fault → IsTrue (is_of_rows fault) }
    ensures first { (bytes more : List ℕ) (fault : RowFault)
        → location_at bytes ≡ Err fault → fault ≢ faults.Truncated
        → location_at (bytes ++ more) ≡ Err fault }
{}

/// Tags are ordered by their locality and then by their id. Two that compare as equal are one tag.
pub fn tag_order_law()
    ensures less { (a b : Tag) → (tag_cmp a b ≡ Less) ↔ IsTagBelow a b }
    ensures greater { (a b : Tag) → (tag_cmp a b ≡ Greater) ↔ IsTagBelow b a }
    ensures equal { (a b : Tag) → (tag_cmp a b ≡ Equal) ↔ (a ≡ b) }
{}

/// Each byte string has exactly one text.
pub fn one_text_law()
    ensures spelled { (text bytes : List ℕ)
        → bytes_of text ≡ Some bytes → text_of bytes ≡ text }
    ensures round_trip { (bytes : List ℕ)
        → AreBytes bytes → bytes_of (text_of bytes) ≡ Some bytes }
{}
