// The key directory: rules 15 to 19 over the values of 34735, 34736 and 34737, and the kinds of the known keys. After rule 15 one pass from
// the last key entry to the first finds what rules 16 to 19 ask for.
#![tactic(auto)]

ghost use Rattle.std.specs.Prelude.{◌≡◌, IfSome, IfOk, [], ◌∷◌, ◌+◌, ◌*◌, ◌≤◌, ◌<◌, length};
ghost use Rattle.std.specs.Result.{result_map_both};
ghost use Rattle.paper.specs.Tests.{just};
ghost use Rattle.paper.specs.Keys.{kind_of, key_at, room, in_entry, within, right_place};
ghost use Rattle.paper.specs.Calls.{row_of};
ghost use Rattle.keys.specs.Rows.{starts_in, RowAsked};
ghost use Rattle.keys.specs.Table.{number, slot_of};
ghost use Rattle.keys.specs.Pass.{runs, lent, lent_in, header_of, head_of, keys_judged, entries_judged};
ghost use Rattle.keys.specs.Pass.{found_with, needed, wrong, one_or_two, zones, heights, allowed, rise_of, place_of, finished};

use paper::{KeyEntry, Outcome, Row, Verdict};

// What a key directory that keeps the rules tells: the number of keys K, the minor revision, and whether raster type is PixelIsPoint.
#[derive(Clone, Copy)]
pub struct KeysJudged {
    pub keys: u32,
    pub minor: u32,
    pub point: bool,
}

// What the key directory's header tells: the minor revision, and the K key entries.
#[derive(Clone, Copy)]
struct Header<'a> {
    minor: u32,
    entries: Entries<'a>,
}

// Where the values of 34735, 34736 and 34737 start in the file.
#[derive(Clone, Copy)]
pub struct Starts {
    pub directory: usize,
    pub doubles: usize,
    pub characters: usize,
}

// The values of 34735, 34736 and 34737; an absent tag is an empty run.
#[derive(Clone, Copy)]
pub struct Values<'a> {
    pub directory: &'a [u8],
    pub doubles: &'a [u8],
    pub characters: &'a [u8],
}

// Where a value may stand outside its entry: in the key directory, the doubles or the characters. These are numbers and no type of their own: an entry's location is
// any number that stands in the file, and the definitions ask of the number.
pub const DIRECTORY: usize = 34735;

pub const DOUBLES: usize = 34736;

pub const CHARACTERS: usize = 34737;

// ---- the kinds of the 45 known keys

// The kind of a key.
#[derive(Clone, Copy, PartialEq, Eq)]
pub enum Kind {
    Short,
    Double,
    Ascii,
    Other,
}

// Its number in a key row.
impl From<Kind> for u32 {
    ghost from_gives = { λ k n. n ≡ number k };

    fn from(kind: Kind) -> u32 {
        match kind {
            Kind::Short => 0,
            Kind::Double => 1,
            Kind::Ascii => 2,
            Kind::Other => 3,
        }
    }
}

// The known keys with their kinds, ascending.
pub static KNOWN: [(u16, Kind); 45] = [
    (1024, Kind::Short),
    (1025, Kind::Short),
    (1026, Kind::Ascii),
    (2048, Kind::Short),
    (2049, Kind::Ascii),
    (2050, Kind::Short),
    (2051, Kind::Short),
    (2052, Kind::Short),
    (2053, Kind::Double),
    (2054, Kind::Short),
    (2055, Kind::Double),
    (2056, Kind::Short),
    (2057, Kind::Double),
    (2058, Kind::Double),
    (2059, Kind::Double),
    (2060, Kind::Short),
    (2061, Kind::Double),
    (3072, Kind::Short),
    (3073, Kind::Ascii),
    (3074, Kind::Short),
    (3075, Kind::Short),
    (3076, Kind::Short),
    (3077, Kind::Double),
    (3078, Kind::Double),
    (3079, Kind::Double),
    (3080, Kind::Double),
    (3081, Kind::Double),
    (3082, Kind::Double),
    (3083, Kind::Double),
    (3084, Kind::Double),
    (3085, Kind::Double),
    (3086, Kind::Double),
    (3087, Kind::Double),
    (3088, Kind::Double),
    (3089, Kind::Double),
    (3090, Kind::Double),
    (3091, Kind::Double),
    (3092, Kind::Double),
    (3093, Kind::Double),
    (3094, Kind::Double),
    (3095, Kind::Double),
    (4096, Kind::Short),
    (4097, Kind::Ascii),
    (4098, Kind::Short),
    (4099, Kind::Short),
];

// Where a key would stand in the table, by its row: these are four rows without a gap. Below the first row it has no place; behind the end of a row its place is
// another key's or past the table, which `kind_of` asks. The place is computed, since a search over the 45 keys would compare more.
#[tactic(auto, unfolding(crate::specs::Table::slot_of))]
fn slot(key: usize) -> Option<usize>
    ensures { result ≡ slot_of key }
{
    if key < 2048 {
        if key < 1024 { None } else { Some(key - 1024) }
    } else if key < 3072 {
        Some(key - 2048 + 3)
    } else if key < 4096 {
        Some(key - 3072 + 17)
    } else {
        Some(key - 4096 + 41)
    }
}

// The kind of a key.
#[tactic(auto, using(crate::proofs::Known::other))]
pub fn kind_of(key: usize) -> Kind
    ensures { number result ≡ kind_of key }
{
    let Some(at) = slot(key) else {
        return Kind::Other;
    };
    if at < KNOWN.len() {
        let (known, kind) = KNOWN[at];
        if usize::from(known) == key {
            return kind;
        }
    }
    Kind::Other
}

// ---- rule 15

// Rule 15: the header's four numbers, and room for K entries. Minor revision 0 or 1 is allowed, and the one that was found is told.
#[tactic(auto, unfolding(crate::specs::Pass::header_of, outcomes::specs::Ruled::ruled, paper::specs::Outcome::first, paper::specs::Keys::rule15, paper::specs::Keys::short, paper::specs::Keys::minor_revision, paper::specs::Keys::key_count))]
fn read_header(big: bool, directory: &[u8]) -> Result<Header, Verdict>
    ensures header { result_map_both (λ h. head_of h.minor h.entries.count) (λ v. v) result ≡ header_of (runs big directory.now [] []) }
    ensures entries { IfOk result (λ h. (h.entries.directory.now ≡ directory.now) × (h.entries.big ≡ big)) }
{
    let refused = outcomes::refused(15, 0);
    if directory.len() < 8 {
        return refused;
    }
    let version = order::short(directory, big, 0);
    let revision = order::short(directory, big, 2);
    let minor = order::short(directory, big, 4);
    let count = order::short(directory, big, 6);
    let many = (256 < count) | (directory.len() / 2 < 4 + 4 * count);
    if (version != 1) | ((revision != 1) | ((1 < minor) | many)) {
        return refused;
    }
    Ok(Header {
        minor: minor as u32,
        entries: Entries {
            directory,
            big,
            count,
        },
    })
}

// ---- one key entry

// Key entry i, counted from 0. Its bounds stand in contracts, here and below: a KeyEntry is plain, as definitions tell one.
#[tactic(auto, unfolding(paper::specs::Keys::key_at, paper::specs::Keys::short))]
pub fn entry_at(directory: &[u8], big: bool, i: usize) -> KeyEntry
    requires { (i < 256) × (8 * i + 16 ≤ length directory.now) }
    ensures { (result ≡ key_at (runs big directory.now [] []) i) × (result.key < 65536) × (result.location < 65536) × (result.count < 65536) × (result.index < 65536) }
{
    let at = 8 * i;
    KeyEntry {
        key: order::short(directory, big, at + 8),
        location: order::short(directory, big, at + 10),
        count: order::short(directory, big, at + 12),
        index: order::short(directory, big, at + 14),
    }
}

// So many key entries of a directory, which all stand in it.
#[derive(Clone, Copy)]
pub struct Entries<'a> {
    pub directory: &'a [u8],
    pub big: bool,
    pub count: usize,
    pub ghost few: { count ≤ 256 },
    pub ghost whole: { 8 + 8 * count ≤ length directory.now },
}

impl<'a> Entries<'a> {
    // Entry i, counted from 0.
    pub fn at(self, i: usize) -> KeyEntry
        requires { i < self.count }
        ensures { (result ≡ key_at (runs self.entry.big self.entry.directory.now [] []) i) × (result.key < 65536) × (result.location < 65536) × (result.count < 65536) × (result.index < 65536) }
    {
        entry_at(self.directory, self.big, i)
    }
}

// How many elements the tag has that a location names.
#[tactic(auto, unfolding(paper::specs::Keys::room))]
fn room_of(values: Values, location: usize) -> usize
    ensures { result ≡ room (lent values.entry) location }
{
    match location {
        DIRECTORY => values.directory.len() / 2,
        DOUBLES => values.doubles.len() / 8,
        CHARACTERS => values.characters.len(),
        _ => 0,
    }
}

// The number is in the entry's fourth place.
fn is_in_entry(e: KeyEntry) -> bool
    ensures { result ≡ in_entry e }
{
    (e.location == 0) & (e.count == 1)
}

// Count 1 or more, and index + count at most the room.
fn is_within(values: Values, e: KeyEntry) -> bool
    requires { (e.count < 65536) × (e.index < 65536) }
    ensures { result ≡ within (lent values.entry) e }
{
    (1 <= e.count) & (e.index + e.count <= room_of(values, e.location))
}

// Rule 17 at one entry: whether location, count and value index are as the kind asks.
#[tactic(auto, unfolding(paper::specs::Keys::right_place, paper::specs::Keys::room))]
fn is_placed(values: Values, e: KeyEntry, kind: Kind) -> bool
    requires { (e.count < 65536) × (e.index < 65536) }
    ensures { result ≡ right_place (lent values.entry) e (number kind) }
{
    match kind {
        Kind::Short => is_in_entry(e),
        Kind::Double => e.location == DOUBLES && e.count == 1 && is_within(values, e),
        Kind::Ascii => {
            e.location == CHARACTERS
                && is_within(values, e)
                && values.characters[e.index + e.count - 1] == b'|'
        }
        Kind::Other => is_in_entry(e) || is_within(values, e),
    }
}

// ---- rules 18 and 19, from the numbers of the keys

// The numbers of the keys that rules 18 and 19 ask for.
#[derive(Clone, Copy)]
struct Found {
    model: Option<usize>,
    raster: Option<usize>,
    geodetic: Option<usize>,
    angular: Option<usize>,
    projected: Option<usize>,
    linear: Option<usize>,
    vertical: Option<usize>,
}

// What is found in no entry.
const NOTHING: Found = Found {
    model: None,
    raster: None,
    geodetic: None,
    angular: None,
    projected: None,
    linear: None,
    vertical: None,
};

// What is found with one entry more in front.
fn find(found: &mut Found, e: KeyEntry)
    ensures { found.new ≡ found_with e found.old }
{
    match e.key {
        1024 => found.model = Some(e.index),
        1025 => found.raster = Some(e.index),
        2048 => found.geodetic = Some(e.index),
        2054 => found.angular = Some(e.index),
        3072 => found.projected = Some(e.index),
        3076 => found.linear = Some(e.index),
        4096 => found.vertical = Some(e.index),
        _ => {}
    }
}

// Rule 18: which key may be absent goes by the model type.
#[tactic(auto, unfolding(crate::specs::Pass::needed, paper::specs::Outcome::first_of))]
fn needed_keys(found: Found) -> Outcome
    ensures { result ≡ needed found }
{
    if found.model.is_none() {
        return Outcome::Broken(1024);
    }
    if found.raster.is_none() {
        return Outcome::Broken(1025);
    }
    if found.model == Some(2) && found.geodetic.is_none() {
        return Outcome::Broken(2048);
    }
    if found.model == Some(1) && found.projected.is_none() {
        return Outcome::Broken(3072);
    }
    Outcome::Kept
}

// Whether a key is present with another number than the only one allowed.
#[tactic(auto, unfolding(crate::specs::Pass::wrong, paper::specs::Tests::allows, paper::specs::Tests::some))]
fn is_not(v: Option<usize>, only: usize) -> bool
    ensures { result ≡ wrong (just only ∷ []) v }
{
    v.is_some_and(|n| n != only)
}

// Whether model type or raster type is present and neither 1 nor 2.
#[tactic(auto, unfolding(crate::specs::Pass::wrong, paper::specs::Tests::allows, paper::specs::Tests::some))]
fn is_no_type(v: Option<usize>) -> bool
    ensures { result ≡ wrong one_or_two v }
{
    !matches!(v, None | Some(1 | 2))
}

// Whether the projected system is present and in neither range, north or south.
#[tactic(auto, unfolding(crate::specs::Pass::wrong, paper::specs::Tests::allows, paper::specs::Tests::some))]
fn is_no_zone(v: Option<usize>) -> bool
    ensures { result ≡ wrong zones v }
{
    !matches!(v, None | Some(32601..=32661 | 32701..=32761))
}

// Whether the vertical system is present and none of the six allowed.
#[tactic(auto, unfolding(crate::specs::Pass::wrong, paper::specs::Tests::allows, paper::specs::Tests::some))]
fn is_no_height(v: Option<usize>) -> bool
    ensures { result ≡ wrong heights v }
{
    !matches!(v, None | Some(3855 | 4979 | 5714 | 5715 | 5773 | 5798))
}

// Rule 19: the lowest key whose number is not allowed.
#[tactic(auto, unfolding(crate::specs::Pass::allowed))]
fn allowed_values(found: Found) -> Outcome
    ensures { result ≡ allowed found }
{
    if is_no_type(found.model) {
        return Outcome::Broken(1024);
    }
    if is_no_type(found.raster) {
        return Outcome::Broken(1025);
    }
    if is_not(found.geodetic, 4326) {
        return Outcome::Broken(2048);
    }
    if is_not(found.angular, 9102) {
        return Outcome::Broken(2054);
    }
    if is_no_zone(found.projected) {
        return Outcome::Broken(3072);
    }
    if is_not(found.linear, 9001) {
        return Outcome::Broken(3076);
    }
    if is_no_height(found.vertical) {
        return Outcome::Broken(4096);
    }
    Outcome::Kept
}

// ---- the judgement

// The whole answer, from what the pass found.
#[tactic(auto, unfolding(crate::specs::Pass::finished, paper::specs::Outcome::first, outcomes::specs::Ruled::ruled))]
fn finish(
    sixteen: Outcome,
    seventeen: Outcome,
    found: Found,
    head: Header,
) -> Result<KeysJudged, Verdict>
    ensures { result ≡ finished sixteen seventeen found (head_of head.entry.minor head.entry.entries.count) }
{
    outcomes::rule(16, sixteen)?;
    outcomes::rule(17, seventeen)?;
    // Rule 18: the needed keys are there.
    outcomes::rule(18, needed_keys(found))?;
    // Rule 19: the numbers of the keys are allowed ones.
    outcomes::rule(19, allowed_values(found))?;
    Ok(KeysJudged {
        keys: head.entries.count as u32,
        minor: head.minor,
        point: found.raster == Some(2),
    })
}

// Rule 16 with one key more in front of the next one.
fn rise(key: usize, next: Option<usize>, later: Outcome) -> Outcome
    requires { IfSome next (λ n. n < 65536) }
    ensures { result ≡ rise_of key next later }
{
    match next {
        Some(n) if n <= key => Outcome::Broken(n as u32),
        _ => later,
    }
}

// Rule 17 with one key more in front.
fn place(placed: bool, key: usize, later: Outcome) -> Outcome
    requires { key < 65536 }
    ensures { result ≡ place_of placed key later }
{
    if placed {
        later
    } else {
        Outcome::Broken(key as u32)
    }
}

// Rules 16 to 19: one pass over the key entries, from the last to the first, so that the first entry of a key is the one that stays; the directory is that of the
// entries. Each byte order has a loop of its own, so that it is not asked for at every number.
#[tactic(auto, using(crate::proofs::Turn::turns))]
fn judge_entries<const BIG: bool>(
    head: Header,
    doubles: &[u8],
    characters: &[u8],
) -> Result<KeysJudged, Verdict>
    ensures { result ≡ entries_judged (runs BIG head.entry.entries.directory.now doubles.now characters.now) (head_of head.entry.minor head.entry.entries.count) }
{
    let mut sixteen = Outcome::Kept;
    let mut seventeen = Outcome::Kept;
    let mut next = None;
    let mut found = NOTHING;
    // Field by field: `..` is refused in a struct with ghost fields.
    let entries = Entries {
        directory: head.entries.directory,
        big: BIG,
        count: head.entries.count,
    };
    let values = Values {
        directory: entries.directory,
        doubles,
        characters,
    };
    for i in (0..entries.count).rev() {
        let e = entries.at(i);
        // Rule 16: a key is below the next one.
        sixteen = rise(e.key, next, sixteen);
        next = Some(e.key);
        // Rule 17: location, count and value index are as the kind asks.
        let kind = kind_of(e.key);
        seventeen = place(is_placed(values, e, kind), e.key, seventeen);
        // What rules 18 and 19 ask for: the number of a key.
        if kind == Kind::Short {
            find(&mut found, e);
        }
    }
    finish(sixteen, seventeen, found, head)
}

// Rules 15 to 19 over the three values.
#[tactic(auto, unfolding(crate::specs::Pass::header_of, crate::specs::Pass::keys_judged, crate::specs::Pass::entries_judged, outcomes::specs::Ruled::ruled, paper::specs::Outcome::first, paper::specs::Keys::key_rules, paper::specs::Keys::keys, paper::specs::Keys::rule15, paper::specs::Keys::short, paper::specs::Keys::minor_revision, paper::specs::Keys::key_count))]
pub fn judge_keys(big: bool, values: Values) -> Result<KeysJudged, Verdict>
    ensures { result ≡ keys_judged (lent_in big values.entry) }
{
    // Rule 15: the header.
    let head = read_header(big, values.directory)?;
    // A const argument is no value: each byte order is named.
    if big {
        judge_entries::<true>(head, values.doubles, values.characters)
    } else {
        judge_entries::<false>(head, values.doubles, values.characters)
    }
}

// ---- key rows

// The row of key entry i, counted from 0, which stands behind the header of 8 bytes and i entries of 8. At location 0 the value is the entry's fourth SHORT.
#[tactic(auto, unfolding(paper::specs::Calls::row_of))]
pub fn row(big: bool, directory: &[u8], starts: Starts, i: usize) -> Row
    requires { RowAsked big directory.now (starts_in starts) i }
    ensures { result ≡ row_of (starts_in starts) i (key_at (runs big directory.now [] []) i) }
{
    let e = entry_at(directory, big, i);
    let entry = starts.directory + (8 + 8 * i);
    let (first, len) = match e.location {
        0 => (entry + 6, 2),
        DIRECTORY => (starts.directory + 2 * e.index, 2 * e.count),
        DOUBLES => (starts.doubles + 8 * e.index, 8 * e.count),
        _ => (starts.characters + e.index, e.count),
    };
    Row {
        key: e.key as u32,
        kind: u32::from(kind_of(e.key)),
        first: first as u32,
        len: len as u32,
        entry: entry as u32,
    }
}
