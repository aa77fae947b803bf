//! The labels of the encodings.
ghost use Rattle.std.specs.Prelude.{◌≡◌, map};
ghost use Rattle.htmd_encodings.specs.Labels as spec;
ghost use Rattle.htmd_encodings.specs.Views.{label_of};

use crate::cuts::{Class, is_in_any_case, split_run};
use crate::encodings::{ByteOrder, Encoding, MultiByte, SingleByte};

/// A label in lower case, and what it names.
type Label = (&'static str, Encoding);

/// The encoding that a label names, in any ASCII case and whatever ASCII white space is around it. `None` if nothing
/// has this label.
pub fn encoding_named(label: &[u8]) -> Option<Encoding>
    ensures { result ≡ spec.encoding_named label.now }
{
    named_in(&LABELS, trimmed(label))
}

/// What a label names, by these labels.
fn named_in(labels: &[Label], label: &[u8]) -> Option<Encoding>
    ensures { result ≡ spec.named_in (map label_of labels.now) label.now }
{
    for (known, named) in labels {
        if is_in_any_case(known.as_bytes(), label) {
            return Some(*named);
        }
    }
    None
}

/// The bytes without the white space at both ends.
fn trimmed(bytes: &[u8]) -> &[u8]
    ensures { result.now ≡ spec.trimmed bytes.now }
{
    let (_, after) = split_run(bytes, Class::White);
    without_end(after)
}

/// The bytes without the white space at their end.
fn without_end(bytes: &[u8]) -> &[u8]
    ensures { result.now ≡ spec.without_end bytes.now }
{
    match bytes.iter().rposition(|byte| !byte.is_ascii_whitespace()) {
        Some(last) => &bytes[..last + 1],
        None => &[],
    }
}

// All labels, in lower case.
static LABELS: [Label; 228] = [
    ("unicode-1-1-utf-8", Encoding::Utf8),
    ("unicode11utf8", Encoding::Utf8),
    ("unicode20utf8", Encoding::Utf8),
    ("utf-8", Encoding::Utf8),
    ("utf8", Encoding::Utf8),
    ("x-unicode20utf8", Encoding::Utf8),
    ("866", Encoding::SingleByte(SingleByte::Ibm866)),
    ("cp866", Encoding::SingleByte(SingleByte::Ibm866)),
    ("csibm866", Encoding::SingleByte(SingleByte::Ibm866)),
    ("ibm866", Encoding::SingleByte(SingleByte::Ibm866)),
    ("csisolatin2", Encoding::SingleByte(SingleByte::Iso8859_2)),
    ("iso-8859-2", Encoding::SingleByte(SingleByte::Iso8859_2)),
    ("iso-ir-101", Encoding::SingleByte(SingleByte::Iso8859_2)),
    ("iso8859-2", Encoding::SingleByte(SingleByte::Iso8859_2)),
    ("iso88592", Encoding::SingleByte(SingleByte::Iso8859_2)),
    ("iso_8859-2", Encoding::SingleByte(SingleByte::Iso8859_2)),
    (
        "iso_8859-2:1987",
        Encoding::SingleByte(SingleByte::Iso8859_2),
    ),
    ("l2", Encoding::SingleByte(SingleByte::Iso8859_2)),
    ("latin2", Encoding::SingleByte(SingleByte::Iso8859_2)),
    ("csisolatin3", Encoding::SingleByte(SingleByte::Iso8859_3)),
    ("iso-8859-3", Encoding::SingleByte(SingleByte::Iso8859_3)),
    ("iso-ir-109", Encoding::SingleByte(SingleByte::Iso8859_3)),
    ("iso8859-3", Encoding::SingleByte(SingleByte::Iso8859_3)),
    ("iso88593", Encoding::SingleByte(SingleByte::Iso8859_3)),
    ("iso_8859-3", Encoding::SingleByte(SingleByte::Iso8859_3)),
    (
        "iso_8859-3:1988",
        Encoding::SingleByte(SingleByte::Iso8859_3),
    ),
    ("l3", Encoding::SingleByte(SingleByte::Iso8859_3)),
    ("latin3", Encoding::SingleByte(SingleByte::Iso8859_3)),
    ("csisolatin4", Encoding::SingleByte(SingleByte::Iso8859_4)),
    ("iso-8859-4", Encoding::SingleByte(SingleByte::Iso8859_4)),
    ("iso-ir-110", Encoding::SingleByte(SingleByte::Iso8859_4)),
    ("iso8859-4", Encoding::SingleByte(SingleByte::Iso8859_4)),
    ("iso88594", Encoding::SingleByte(SingleByte::Iso8859_4)),
    ("iso_8859-4", Encoding::SingleByte(SingleByte::Iso8859_4)),
    (
        "iso_8859-4:1988",
        Encoding::SingleByte(SingleByte::Iso8859_4),
    ),
    ("l4", Encoding::SingleByte(SingleByte::Iso8859_4)),
    ("latin4", Encoding::SingleByte(SingleByte::Iso8859_4)),
    (
        "csisolatincyrillic",
        Encoding::SingleByte(SingleByte::Iso8859_5),
    ),
    ("cyrillic", Encoding::SingleByte(SingleByte::Iso8859_5)),
    ("iso-8859-5", Encoding::SingleByte(SingleByte::Iso8859_5)),
    ("iso-ir-144", Encoding::SingleByte(SingleByte::Iso8859_5)),
    ("iso8859-5", Encoding::SingleByte(SingleByte::Iso8859_5)),
    ("iso88595", Encoding::SingleByte(SingleByte::Iso8859_5)),
    ("iso_8859-5", Encoding::SingleByte(SingleByte::Iso8859_5)),
    (
        "iso_8859-5:1988",
        Encoding::SingleByte(SingleByte::Iso8859_5),
    ),
    ("arabic", Encoding::SingleByte(SingleByte::Iso8859_6)),
    ("asmo-708", Encoding::SingleByte(SingleByte::Iso8859_6)),
    ("csiso88596e", Encoding::SingleByte(SingleByte::Iso8859_6)),
    ("csiso88596i", Encoding::SingleByte(SingleByte::Iso8859_6)),
    (
        "csisolatinarabic",
        Encoding::SingleByte(SingleByte::Iso8859_6),
    ),
    ("ecma-114", Encoding::SingleByte(SingleByte::Iso8859_6)),
    ("iso-8859-6", Encoding::SingleByte(SingleByte::Iso8859_6)),
    ("iso-8859-6-e", Encoding::SingleByte(SingleByte::Iso8859_6)),
    ("iso-8859-6-i", Encoding::SingleByte(SingleByte::Iso8859_6)),
    ("iso-ir-127", Encoding::SingleByte(SingleByte::Iso8859_6)),
    ("iso8859-6", Encoding::SingleByte(SingleByte::Iso8859_6)),
    ("iso88596", Encoding::SingleByte(SingleByte::Iso8859_6)),
    ("iso_8859-6", Encoding::SingleByte(SingleByte::Iso8859_6)),
    (
        "iso_8859-6:1987",
        Encoding::SingleByte(SingleByte::Iso8859_6),
    ),
    (
        "csisolatingreek",
        Encoding::SingleByte(SingleByte::Iso8859_7),
    ),
    ("ecma-118", Encoding::SingleByte(SingleByte::Iso8859_7)),
    ("elot_928", Encoding::SingleByte(SingleByte::Iso8859_7)),
    ("greek", Encoding::SingleByte(SingleByte::Iso8859_7)),
    ("greek8", Encoding::SingleByte(SingleByte::Iso8859_7)),
    ("iso-8859-7", Encoding::SingleByte(SingleByte::Iso8859_7)),
    ("iso-ir-126", Encoding::SingleByte(SingleByte::Iso8859_7)),
    ("iso8859-7", Encoding::SingleByte(SingleByte::Iso8859_7)),
    ("iso88597", Encoding::SingleByte(SingleByte::Iso8859_7)),
    ("iso_8859-7", Encoding::SingleByte(SingleByte::Iso8859_7)),
    (
        "iso_8859-7:1987",
        Encoding::SingleByte(SingleByte::Iso8859_7),
    ),
    ("sun_eu_greek", Encoding::SingleByte(SingleByte::Iso8859_7)),
    ("csiso88598e", Encoding::SingleByte(SingleByte::Iso8859_8)),
    (
        "csisolatinhebrew",
        Encoding::SingleByte(SingleByte::Iso8859_8),
    ),
    ("hebrew", Encoding::SingleByte(SingleByte::Iso8859_8)),
    ("iso-8859-8", Encoding::SingleByte(SingleByte::Iso8859_8)),
    ("iso-8859-8-e", Encoding::SingleByte(SingleByte::Iso8859_8)),
    ("iso-ir-138", Encoding::SingleByte(SingleByte::Iso8859_8)),
    ("iso8859-8", Encoding::SingleByte(SingleByte::Iso8859_8)),
    ("iso88598", Encoding::SingleByte(SingleByte::Iso8859_8)),
    ("iso_8859-8", Encoding::SingleByte(SingleByte::Iso8859_8)),
    (
        "iso_8859-8:1988",
        Encoding::SingleByte(SingleByte::Iso8859_8),
    ),
    ("visual", Encoding::SingleByte(SingleByte::Iso8859_8)),
    ("csiso88598i", Encoding::SingleByte(SingleByte::Iso8859_8I)),
    ("iso-8859-8-i", Encoding::SingleByte(SingleByte::Iso8859_8I)),
    ("logical", Encoding::SingleByte(SingleByte::Iso8859_8I)),
    ("csisolatin6", Encoding::SingleByte(SingleByte::Iso8859_10)),
    ("iso-8859-10", Encoding::SingleByte(SingleByte::Iso8859_10)),
    ("iso-ir-157", Encoding::SingleByte(SingleByte::Iso8859_10)),
    ("iso8859-10", Encoding::SingleByte(SingleByte::Iso8859_10)),
    ("iso885910", Encoding::SingleByte(SingleByte::Iso8859_10)),
    ("l6", Encoding::SingleByte(SingleByte::Iso8859_10)),
    ("latin6", Encoding::SingleByte(SingleByte::Iso8859_10)),
    ("iso-8859-13", Encoding::SingleByte(SingleByte::Iso8859_13)),
    ("iso8859-13", Encoding::SingleByte(SingleByte::Iso8859_13)),
    ("iso885913", Encoding::SingleByte(SingleByte::Iso8859_13)),
    ("iso-8859-14", Encoding::SingleByte(SingleByte::Iso8859_14)),
    ("iso8859-14", Encoding::SingleByte(SingleByte::Iso8859_14)),
    ("iso885914", Encoding::SingleByte(SingleByte::Iso8859_14)),
    ("csisolatin9", Encoding::SingleByte(SingleByte::Iso8859_15)),
    ("iso-8859-15", Encoding::SingleByte(SingleByte::Iso8859_15)),
    ("iso8859-15", Encoding::SingleByte(SingleByte::Iso8859_15)),
    ("iso885915", Encoding::SingleByte(SingleByte::Iso8859_15)),
    ("iso_8859-15", Encoding::SingleByte(SingleByte::Iso8859_15)),
    ("l9", Encoding::SingleByte(SingleByte::Iso8859_15)),
    ("iso-8859-16", Encoding::SingleByte(SingleByte::Iso8859_16)),
    ("cskoi8r", Encoding::SingleByte(SingleByte::Koi8R)),
    ("koi", Encoding::SingleByte(SingleByte::Koi8R)),
    ("koi8", Encoding::SingleByte(SingleByte::Koi8R)),
    ("koi8-r", Encoding::SingleByte(SingleByte::Koi8R)),
    ("koi8_r", Encoding::SingleByte(SingleByte::Koi8R)),
    ("koi8-ru", Encoding::SingleByte(SingleByte::Koi8U)),
    ("koi8-u", Encoding::SingleByte(SingleByte::Koi8U)),
    ("csmacintosh", Encoding::SingleByte(SingleByte::Macintosh)),
    ("mac", Encoding::SingleByte(SingleByte::Macintosh)),
    ("macintosh", Encoding::SingleByte(SingleByte::Macintosh)),
    ("x-mac-roman", Encoding::SingleByte(SingleByte::Macintosh)),
    ("dos-874", Encoding::SingleByte(SingleByte::Windows874)),
    ("iso-8859-11", Encoding::SingleByte(SingleByte::Windows874)),
    ("iso8859-11", Encoding::SingleByte(SingleByte::Windows874)),
    ("iso885911", Encoding::SingleByte(SingleByte::Windows874)),
    ("tis-620", Encoding::SingleByte(SingleByte::Windows874)),
    ("windows-874", Encoding::SingleByte(SingleByte::Windows874)),
    ("cp1250", Encoding::SingleByte(SingleByte::Windows1250)),
    (
        "windows-1250",
        Encoding::SingleByte(SingleByte::Windows1250),
    ),
    ("x-cp1250", Encoding::SingleByte(SingleByte::Windows1250)),
    ("cp1251", Encoding::SingleByte(SingleByte::Windows1251)),
    (
        "windows-1251",
        Encoding::SingleByte(SingleByte::Windows1251),
    ),
    ("x-cp1251", Encoding::SingleByte(SingleByte::Windows1251)),
    (
        "ansi_x3.4-1968",
        Encoding::SingleByte(SingleByte::Windows1252),
    ),
    ("ascii", Encoding::SingleByte(SingleByte::Windows1252)),
    ("cp1252", Encoding::SingleByte(SingleByte::Windows1252)),
    ("cp819", Encoding::SingleByte(SingleByte::Windows1252)),
    ("csisolatin1", Encoding::SingleByte(SingleByte::Windows1252)),
    ("ibm819", Encoding::SingleByte(SingleByte::Windows1252)),
    ("iso-8859-1", Encoding::SingleByte(SingleByte::Windows1252)),
    ("iso-ir-100", Encoding::SingleByte(SingleByte::Windows1252)),
    ("iso8859-1", Encoding::SingleByte(SingleByte::Windows1252)),
    ("iso88591", Encoding::SingleByte(SingleByte::Windows1252)),
    ("iso_8859-1", Encoding::SingleByte(SingleByte::Windows1252)),
    (
        "iso_8859-1:1987",
        Encoding::SingleByte(SingleByte::Windows1252),
    ),
    ("l1", Encoding::SingleByte(SingleByte::Windows1252)),
    ("latin1", Encoding::SingleByte(SingleByte::Windows1252)),
    ("us-ascii", Encoding::SingleByte(SingleByte::Windows1252)),
    (
        "windows-1252",
        Encoding::SingleByte(SingleByte::Windows1252),
    ),
    ("x-cp1252", Encoding::SingleByte(SingleByte::Windows1252)),
    ("cp1253", Encoding::SingleByte(SingleByte::Windows1253)),
    (
        "windows-1253",
        Encoding::SingleByte(SingleByte::Windows1253),
    ),
    ("x-cp1253", Encoding::SingleByte(SingleByte::Windows1253)),
    ("cp1254", Encoding::SingleByte(SingleByte::Windows1254)),
    ("csisolatin5", Encoding::SingleByte(SingleByte::Windows1254)),
    ("iso-8859-9", Encoding::SingleByte(SingleByte::Windows1254)),
    ("iso-ir-148", Encoding::SingleByte(SingleByte::Windows1254)),
    ("iso8859-9", Encoding::SingleByte(SingleByte::Windows1254)),
    ("iso88599", Encoding::SingleByte(SingleByte::Windows1254)),
    ("iso_8859-9", Encoding::SingleByte(SingleByte::Windows1254)),
    (
        "iso_8859-9:1989",
        Encoding::SingleByte(SingleByte::Windows1254),
    ),
    ("l5", Encoding::SingleByte(SingleByte::Windows1254)),
    ("latin5", Encoding::SingleByte(SingleByte::Windows1254)),
    (
        "windows-1254",
        Encoding::SingleByte(SingleByte::Windows1254),
    ),
    ("x-cp1254", Encoding::SingleByte(SingleByte::Windows1254)),
    ("cp1255", Encoding::SingleByte(SingleByte::Windows1255)),
    (
        "windows-1255",
        Encoding::SingleByte(SingleByte::Windows1255),
    ),
    ("x-cp1255", Encoding::SingleByte(SingleByte::Windows1255)),
    ("cp1256", Encoding::SingleByte(SingleByte::Windows1256)),
    (
        "windows-1256",
        Encoding::SingleByte(SingleByte::Windows1256),
    ),
    ("x-cp1256", Encoding::SingleByte(SingleByte::Windows1256)),
    ("cp1257", Encoding::SingleByte(SingleByte::Windows1257)),
    (
        "windows-1257",
        Encoding::SingleByte(SingleByte::Windows1257),
    ),
    ("x-cp1257", Encoding::SingleByte(SingleByte::Windows1257)),
    ("cp1258", Encoding::SingleByte(SingleByte::Windows1258)),
    (
        "windows-1258",
        Encoding::SingleByte(SingleByte::Windows1258),
    ),
    ("x-cp1258", Encoding::SingleByte(SingleByte::Windows1258)),
    (
        "x-mac-cyrillic",
        Encoding::SingleByte(SingleByte::XMacCyrillic),
    ),
    (
        "x-mac-ukrainian",
        Encoding::SingleByte(SingleByte::XMacCyrillic),
    ),
    ("chinese", Encoding::MultiByte(MultiByte::Gbk)),
    ("csgb2312", Encoding::MultiByte(MultiByte::Gbk)),
    ("csiso58gb231280", Encoding::MultiByte(MultiByte::Gbk)),
    ("gb2312", Encoding::MultiByte(MultiByte::Gbk)),
    ("gb_2312", Encoding::MultiByte(MultiByte::Gbk)),
    ("gb_2312-80", Encoding::MultiByte(MultiByte::Gbk)),
    ("gbk", Encoding::MultiByte(MultiByte::Gbk)),
    ("iso-ir-58", Encoding::MultiByte(MultiByte::Gbk)),
    ("x-gbk", Encoding::MultiByte(MultiByte::Gbk)),
    ("gb18030", Encoding::MultiByte(MultiByte::Gb18030)),
    ("big5", Encoding::MultiByte(MultiByte::Big5)),
    ("big5-hkscs", Encoding::MultiByte(MultiByte::Big5)),
    ("cn-big5", Encoding::MultiByte(MultiByte::Big5)),
    ("csbig5", Encoding::MultiByte(MultiByte::Big5)),
    ("x-x-big5", Encoding::MultiByte(MultiByte::Big5)),
    ("cseucpkdfmtjapanese", Encoding::MultiByte(MultiByte::EucJp)),
    ("euc-jp", Encoding::MultiByte(MultiByte::EucJp)),
    ("x-euc-jp", Encoding::MultiByte(MultiByte::EucJp)),
    ("csiso2022jp", Encoding::Iso2022Jp),
    ("iso-2022-jp", Encoding::Iso2022Jp),
    ("csshiftjis", Encoding::MultiByte(MultiByte::ShiftJis)),
    ("ms932", Encoding::MultiByte(MultiByte::ShiftJis)),
    ("ms_kanji", Encoding::MultiByte(MultiByte::ShiftJis)),
    ("shift-jis", Encoding::MultiByte(MultiByte::ShiftJis)),
    ("shift_jis", Encoding::MultiByte(MultiByte::ShiftJis)),
    ("sjis", Encoding::MultiByte(MultiByte::ShiftJis)),
    ("windows-31j", Encoding::MultiByte(MultiByte::ShiftJis)),
    ("x-sjis", Encoding::MultiByte(MultiByte::ShiftJis)),
    ("cseuckr", Encoding::MultiByte(MultiByte::EucKr)),
    ("csksc56011987", Encoding::MultiByte(MultiByte::EucKr)),
    ("euc-kr", Encoding::MultiByte(MultiByte::EucKr)),
    ("iso-ir-149", Encoding::MultiByte(MultiByte::EucKr)),
    ("korean", Encoding::MultiByte(MultiByte::EucKr)),
    ("ks_c_5601-1987", Encoding::MultiByte(MultiByte::EucKr)),
    ("ks_c_5601-1989", Encoding::MultiByte(MultiByte::EucKr)),
    ("ksc5601", Encoding::MultiByte(MultiByte::EucKr)),
    ("ksc_5601", Encoding::MultiByte(MultiByte::EucKr)),
    ("windows-949", Encoding::MultiByte(MultiByte::EucKr)),
    ("csiso2022kr", Encoding::Replacement),
    ("hz-gb-2312", Encoding::Replacement),
    ("iso-2022-cn", Encoding::Replacement),
    ("iso-2022-cn-ext", Encoding::Replacement),
    ("iso-2022-kr", Encoding::Replacement),
    ("replacement", Encoding::Replacement),
    ("unicodefffe", Encoding::Utf16(ByteOrder::BigEndian)),
    ("utf-16be", Encoding::Utf16(ByteOrder::BigEndian)),
    ("csunicode", Encoding::Utf16(ByteOrder::LittleEndian)),
    ("iso-10646-ucs-2", Encoding::Utf16(ByteOrder::LittleEndian)),
    ("ucs-2", Encoding::Utf16(ByteOrder::LittleEndian)),
    ("unicode", Encoding::Utf16(ByteOrder::LittleEndian)),
    ("unicodefeff", Encoding::Utf16(ByteOrder::LittleEndian)),
    ("utf-16", Encoding::Utf16(ByteOrder::LittleEndian)),
    ("utf-16le", Encoding::Utf16(ByteOrder::LittleEndian)),
    (
        "x-user-defined",
        Encoding::SingleByte(SingleByte::XUserDefined),
    ),
];
