//! Pieces of a text that are written into an array of bytes, so that no piece needs memory. Each function returns the place after its piece.

ghost use Rattle.std.specs.Prelude.{◌≡◌, ◌<◌, ◌≤◌, ◌+◌, ◌/◌, ◌%◌, ◌^◌, ◌∷◌, ◌++◌, [], get_or, length, take};
ghost use Rattle.std.specs.Fmt.{decimal};
ghost use Rattle.gps_fixed.specs.Text.{digits_in, scaled_text, unsigned_text};
ghost use Rattle.json_line.specs.Json.{member, member_if, signed, truth};
ghost use Rattle.json_line.specs.Names.{label_of};

use crate::names::{Key, label};
use itoa::Buffer;

#[inline(always)]
pub fn place_byte(room: &mut [u8], at: usize, byte: u8) -> usize
    requires { at < length room.old }
    ensures bytes { take result room.new ≡ take at room.old ++ byte ∷ [] }
    ensures room { length room.new ≡ length room.old }
    ensures end { result ≡ at + 1 }
{
    room[at] = byte;
    at + 1
}

#[inline(always)]
pub fn place_text(room: &mut [u8], at: usize, text: &[u8]) -> usize
    requires { at + length text.now ≤ length room.old }
    ensures bytes { take result room.new ≡ take at room.old ++ text.now }
    ensures room { length room.new ≡ length room.old }
    ensures end { result ≡ at + length text.now }
{
    let end = at + text.len();
    room[at..end].copy_from_slice(text);
    end
}

/// A text that is given by value, and so lies apart from the room: then the copy has no case for texts that overlap.
#[inline(always)]
pub fn place_bytes<const N: usize>(room: &mut [u8], at: usize, text: [u8; N]) -> usize
    requires { at + length text ≤ length room.old }
    ensures bytes { take result room.new ≡ take at room.old ++ text.entry }
    ensures room { length room.new ≡ length room.old }
    ensures end { result ≡ at + length text.entry }
{
    place_text(room, at, &text)
}

fn digit(n: u32) -> u8
    ensures { result ≡ 48 + n % 10 }
{
    b'0' + (n % 10) as u8
}

/// The two digits of each number below 100, one number after the other.
static PAIRS: [u8; 200] =
    *b"00010203040506070809101112131415161718192021222324252627282930313233343536373839404142434445464748495051525354555657585960616263646566676869707172737475767778798081828384858687888990919293949596979899";

/// Two digits at once, without a division.
#[inline(always)]
fn two_digits(n: u32) -> [u8; 2]
    requires { n < 100 }
    ensures { result ≡ (48 + n / 10 % 10) ∷ (48 + n % 10) ∷ [] }
{
    let at = n as usize * 2;
    [PAIRS[at], PAIRS[at + 1]]
}

#[inline(always)]
fn three_digits(n: u32) -> [u8; 3]
    requires { n < 1_000 }
    ensures { result ≡ (48 + n / 100 % 10) ∷ (48 + n / 10 % 10) ∷ (48 + n % 10) ∷ [] }
{
    let last = two_digits(n % 100);
    [digit(n / 100), last[0], last[1]]
}

/// The digits of each number below 1,000 from the left, in three places, and how many they are.
static NUMBERS: [u8; 4_000] =
    *b"0  11  12  13  14  15  16  17  18  19  110 211 212 213 214 215 216 217 218 219 220 221 222 223 224 225 226 227 228 229 230 231 232 233 234 235 236 237 238 239 240 241 242 243 244 245 246 247 248 249 250 251 252 253 254 255 256 257 258 259 260 261 262 263 264 265 266 267 268 269 270 271 272 273 274 275 276 277 278 279 280 281 282 283 284 285 286 287 288 289 290 291 292 293 294 295 296 297 298 299 2100310131023103310431053106310731083109311031113112311331143115311631173118311931203121312231233124312531263127312831293130313131323133313431353136313731383139314031413142314331443145314631473148314931503151315231533154315531563157315831593160316131623163316431653166316731683169317031713172317331743175317631773178317931803181318231833184318531863187318831893190319131923193319431953196319731983199320032013202320332043205320632073208320932103211321232133214321532163217321832193220322132223223322432253226322732283229323032313232323332343235323632373238323932403241324232433244324532463247324832493250325132523253325432553256325732583259326032613262326332643265326632673268326932703271327232733274327532763277327832793280328132823283328432853286328732883289329032913292329332943295329632973298329933003301330233033304330533063307330833093310331133123313331433153316331733183319332033213322332333243325332633273328332933303331333233333334333533363337333833393340334133423343334433453346334733483349335033513352335333543355335633573358335933603361336233633364336533663367336833693370337133723373337433753376337733783379338033813382338333843385338633873388338933903391339233933394339533963397339833993400340134023403340434053406340734083409341034113412341334143415341634173418341934203421342234233424342534263427342834293430343134323433343434353436343734383439344034413442344334443445344634473448344934503451345234533454345534563457345834593460346134623463346434653466346734683469347034713472347334743475347634773478347934803481348234833484348534863487348834893490349134923493349434953496349734983499350035013502350335043505350635073508350935103511351235133514351535163517351835193520352135223523352435253526352735283529353035313532353335343535353635373538353935403541354235433544354535463547354835493550355135523553355435553556355735583559356035613562356335643565356635673568356935703571357235733574357535763577357835793580358135823583358435853586358735883589359035913592359335943595359635973598359936003601360236033604360536063607360836093610361136123613361436153616361736183619362036213622362336243625362636273628362936303631363236333634363536363637363836393640364136423643364436453646364736483649365036513652365336543655365636573658365936603661366236633664366536663667366836693670367136723673367436753676367736783679368036813682368336843685368636873688368936903691369236933694369536963697369836993700370137023703370437053706370737083709371037113712371337143715371637173718371937203721372237233724372537263727372837293730373137323733373437353736373737383739374037413742374337443745374637473748374937503751375237533754375537563757375837593760376137623763376437653766376737683769377037713772377337743775377637773778377937803781378237833784378537863787378837893790379137923793379437953796379737983799380038013802380338043805380638073808380938103811381238133814381538163817381838193820382138223823382438253826382738283829383038313832383338343835383638373838383938403841384238433844384538463847384838493850385138523853385438553856385738583859386038613862386338643865386638673868386938703871387238733874387538763877387838793880388138823883388438853886388738883889389038913892389338943895389638973898389939003901390239033904390539063907390839093910391139123913391439153916391739183919392039213922392339243925392639273928392939303931393239333934393539363937393839393940394139423943394439453946394739483949395039513952395339543955395639573958395939603961396239633964396539663967396839693970397139723973397439753976397739783979398039813982398339843985398639873988398939903991399239933994399539963997399839993";

/// The row of a number in the table.
#[inline(always)]
fn row_of(n: u32) -> [u8; 4]
    requires { n < 1_000 }
    ensures digits { take (length (decimal n)) result ≡ decimal n }
    ensures count { get_or result 3 0 ≡ 48 + length (decimal n) }
    ensures few { length (decimal n) ≤ 3 }
{
    let at = n as usize * 4;
    [
        NUMBERS[at],
        NUMBERS[at + 1],
        NUMBERS[at + 2],
        NUMBERS[at + 3],
    ]
}

/// A number of one to three digits: its whole row is written, and what comes next begins behind its digits.
#[inline(always)]
#[tactic(auto, using(crate::proofs::Rows::in_front))]
fn place_short(room: &mut [u8], at: usize, n: u32) -> usize
    requires short { n < 1_000 }
    requires room { at + 4 ≤ length room.old }
    ensures bytes { take result room.new ≡ take at room.old ++ decimal n }
    ensures room { length room.new ≡ length room.old }
    ensures end { result ≡ at + length (decimal n) }
    ensures most { result ≤ at + 3 }
{
    let row = row_of(n);
    place_text(room, at, &row);
    at + usize::from(row[3]) - 48
}

/// A whole number, in decimal digits without leading zeros. Most have one to three.
#[cycle(number)]
#[inline(always)]
pub fn place_number(room: &mut [u8], at: usize, n: u32) -> usize
    requires { at + 10 ≤ length room.old }
    ensures bytes { take result room.new ≡ take at room.old ++ decimal n }
    ensures room { length room.new ≡ length room.old }
    ensures end { result ≡ at + length (decimal n) }
    ensures most { result ≤ at + 10 }
{
    if n < 1_000 {
        place_short(room, at, n)
    } else {
        place_long(room, at, n)
    }
}

#[cycle(number)]
#[inline(never)]
fn place_long(room: &mut [u8], at: usize, n: u32) -> usize
    requires room { at + 10 ≤ length room.old }
    requires long { 1_000 ≤ n }
    ensures bytes { take result room.new ≡ take at room.old ++ decimal n }
    ensures room { length room.new ≡ length room.old }
    ensures end { result ≡ at + length (decimal n) }
    ensures most { result ≤ at + 10 }
{
    let behind = place_number(room, at, n / 1_000);
    place_text(room, behind, &[digit(n / 100), digit(n / 10), digit(n)])
}

#[inline(never)]
#[tactic(auto, using(crate::proofs::Numbers::at_most_twenty))]
fn place_formatted(room: &mut [u8], at: usize, n: u64) -> usize
    requires { at + 20 ≤ length room.old }
    ensures bytes { take result room.new ≡ take at room.old ++ decimal n }
    ensures room { length room.new ≡ length room.old }
    ensures end { result ≤ at + 20 }
{
    let mut digits = Buffer::new();
    place_text(room, at, digits.format(n).as_bytes())
}

/// The same of a number of 64 bits.
#[inline(always)]
pub fn place_whole(room: &mut [u8], at: usize, n: u64) -> usize
    requires { at + 20 ≤ length room.old }
    ensures bytes { take result room.new ≡ take at room.old ++ decimal n }
    ensures room { length room.new ≡ length room.old }
    ensures end { result ≤ at + 20 }
{
    if n < 1_000 {
        place_number(room, at, n as u32)
    } else {
        place_formatted(room, at, n)
    }
}

fn nine_digits(n: u32) -> [u8; 9]
    ensures { result ≡ digits_in 9 n }
{
    [
        digit(n / 100_000_000),
        digit(n / 10_000_000),
        digit(n / 1_000_000),
        digit(n / 100_000),
        digit(n / 10_000),
        digit(n / 1_000),
        digit(n / 100),
        digit(n / 10),
        digit(n),
    ]
}

#[tactic(auto, using(gps_fixed::proofs::TextLaws::last_digits))]
fn place_some_of_nine(room: &mut [u8], at: usize, n: u32, count: u8) -> usize
    requires few { count ≤ 9 }
    requires room { at + 9 ≤ length room.old }
    ensures bytes { take result room.new ≡ take at room.old ++ digits_in count n }
    ensures room { length room.new ≡ length room.old }
    ensures end { result ≤ at + 9 }
{
    let nine = nine_digits(n);
    place_text(room, at, &nine[9 - count as usize..])
}

/// The last `count` digits of a number.
#[inline(always)]
fn place_digits(room: &mut [u8], at: usize, n: u32, count: u8) -> usize
    requires few { count ≤ 9 }
    requires room { at + 9 ≤ length room.old }
    ensures bytes { take result room.new ≡ take at room.old ++ digits_in count n }
    ensures room { length room.new ≡ length room.old }
    ensures end { result ≤ at + 9 }
{
    match count {
        2 => place_text(room, at, &two_digits(n % 100)),
        3 => place_text(room, at, &three_digits(n % 1_000)),
        4 => place_text(
            room,
            at,
            &[digit(n / 1_000), digit(n / 100), digit(n / 10), digit(n)],
        ),
        9 => place_text(room, at, &nine_digits(n)),
        _ => place_some_of_nine(room, at, n, count),
    }
}

#[inline(always)]
fn unit_of(decimals: u8) -> u64
    requires { decimals ≤ 9 }
    ensures { result ≡ 10 ^ decimals }
{
    match decimals {
        0 => 1,
        1 => 10,
        2 => 100,
        3 => 1_000,
        4 => 10_000,
        5 => 100_000,
        6 => 1_000_000,
        7 => 10_000_000,
        8 => 100_000_000,
        _ => 1_000_000_000,
    }
}

#[inline(always)]
#[tactic(auto, using(gps_fixed::proofs::TextLaws::unit_some, gps_fixed::proofs::TextLaws::rest_small))]
fn place_unsigned(room: &mut [u8], at: usize, magnitude: u64, decimals: u8) -> usize
    requires few { decimals ≤ 9 }
    requires room { at + 30 ≤ length room.old }
    ensures bytes { take result room.new ≡ take at room.old ++ unsigned_text decimals magnitude }
    ensures room { length room.new ≡ length room.old }
    ensures end { result ≤ at + 30 }
{
    let unit = unit_of(decimals);
    let behind = place_whole(room, at, magnitude / unit);
    let behind = place_byte(room, behind, b'.');
    place_digits(room, behind, (magnitude % unit) as u32, decimals)
}

/// `value / 10^decimals` with exactly `decimals` decimals: `-` only for a value below zero, no leading zeros.
#[inline(always)]
pub fn place_scaled(room: &mut [u8], at: usize, value: i64, decimals: u8) -> usize
    requires few { decimals ≤ 9 }
    requires room { at + 31 ≤ length room.old }
    ensures bytes { take result room.new ≡ take at room.old ++ scaled_text decimals value }
    ensures room { length room.new ≡ length room.old }
    ensures end { result ≤ at + 31 }
{
    if value < 0 {
        let behind = place_byte(room, at, b'-');
        place_unsigned(room, behind, value.unsigned_abs(), decimals)
    } else {
        place_unsigned(room, at, value.unsigned_abs(), decimals)
    }
}

/// What comes before the value of a member. The labels of numbers are given by value (see [`place_bytes`]).
#[inline(always)]
#[tactic(auto, unfolding(crate::specs::Names::label_of))]
pub fn place_label(room: &mut [u8], at: usize, key: Key) -> usize
    requires { at + length (label_of key) ≤ length room.old }
    ensures bytes { take result room.new ≡ take at room.old ++ label_of key }
    ensures room { length room.new ≡ length room.old }
    ensures end { result ≡ at + length (label_of key) }
{
    match key {
        Key::AltHae => place_bytes(room, at, *b",\"altHAE\":"),
        Key::AltMsl => place_bytes(room, at, *b",\"altMSL\":"),
        Key::Az => place_bytes(room, at, *b",\"az\":"),
        Key::Climb => place_bytes(room, at, *b",\"climb\":"),
        Key::El => place_bytes(room, at, *b",\"el\":"),
        Key::GeoidSep => place_bytes(room, at, *b",\"geoidSep\":"),
        Key::Gnssid => place_bytes(room, at, *b",\"gnssid\":"),
        Key::Hdop => place_bytes(room, at, *b",\"hdop\":"),
        Key::Lat => place_bytes(room, at, *b",\"lat\":"),
        Key::Lon => place_bytes(room, at, *b",\"lon\":"),
        Key::NSat => place_bytes(room, at, *b",\"nSat\":"),
        Key::Pdop => place_bytes(room, at, *b",\"pdop\":"),
        Key::Sigid => place_bytes(room, at, *b",\"sigid\":"),
        Key::Speed => place_bytes(room, at, *b",\"speed\":"),
        Key::Ss => place_bytes(room, at, *b",\"ss\":"),
        Key::Svid => place_bytes(room, at, *b",\"svid\":"),
        Key::Track => place_bytes(room, at, *b",\"track\":"),
        Key::USat => place_bytes(room, at, *b",\"uSat\":"),
        Key::Vdop => place_bytes(room, at, *b",\"vdop\":"),
        _ => place_text(room, at, label(key)),
    }
}

/// A number, if there is one.
#[inline(always)]
#[tactic(auto, unfolding(crate::specs::Json::member_if))]
pub fn place_number_if(room: &mut [u8], at: usize, key: Key, value: Option<u32>) -> usize
    requires short { length (label_of key) ≤ 10 }
    requires room { at + 20 ≤ length room.old }
    ensures bytes { take result room.new ≡ take at room.old ++ member_if key decimal value }
    ensures room { length room.new ≡ length room.old }
    ensures end { result ≤ at + 20 }
{
    match value {
        Some(value) => {
            let behind = place_label(room, at, key);
            place_number(room, behind, value)
        }
        None => at,
    }
}

/// A number with a sign, if there is one.
#[inline(always)]
#[tactic(auto, unfolding(crate::specs::Json::member_if, crate::specs::Json::signed))]
pub fn place_signed_if(room: &mut [u8], at: usize, key: Key, value: Option<i32>) -> usize
    requires short { length (label_of key) ≤ 10 }
    requires room { at + 21 ≤ length room.old }
    ensures bytes { take result room.new ≡ take at room.old ++ member_if key signed value }
    ensures room { length room.new ≡ length room.old }
    ensures end { result ≤ at + 21 }
{
    match value {
        Some(value) => {
            let behind = place_label(room, at, key);
            if value < 0 {
                let behind = place_byte(room, behind, b'-');
                place_number(room, behind, value.unsigned_abs())
            } else {
                place_number(room, behind, value.unsigned_abs())
            }
        }
        None => at,
    }
}
