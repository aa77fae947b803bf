//! The encodings of the Encoding Standard.
/// Which byte of a code unit comes first.
#[derive(Debug, Clone, Copy, PartialEq, Eq, Drop)]
pub enum ByteOrder {
    BigEndian,
    LittleEndian,
}

/// A single-byte encoding, which has a character for each byte.
#[derive(Debug, Clone, Copy, PartialEq, Eq, Drop)]
pub enum SingleByte {
    Ibm866,
    Iso8859_2,
    Iso8859_3,
    Iso8859_4,
    Iso8859_5,
    Iso8859_6,
    Iso8859_7,
    Iso8859_8,
    Iso8859_8I,
    Iso8859_10,
    Iso8859_13,
    Iso8859_14,
    Iso8859_15,
    Iso8859_16,
    Koi8R,
    Koi8U,
    Macintosh,
    Windows874,
    Windows1250,
    Windows1251,
    Windows1252,
    Windows1253,
    Windows1254,
    Windows1255,
    Windows1256,
    Windows1257,
    Windows1258,
    XMacCyrillic,
    XUserDefined,
}

/// An encoding with characters of one byte and of several, each of which is read by itself.
#[derive(Debug, Clone, Copy, PartialEq, Eq, Drop)]
pub enum MultiByte {
    Gbk,
    Gb18030,
    Big5,
    EucJp,
    ShiftJis,
    EucKr,
}

/// An encoding of the Encoding Standard.
#[derive(Debug, Clone, Copy, PartialEq, Eq, Drop)]
pub enum Encoding {
    Utf8,
    Utf16(ByteOrder),
    SingleByte(SingleByte),
    MultiByte(MultiByte),
    Iso2022Jp,
    /// What stands for encodings that aren't safe to read, as HZ: bytes in it are one U+FFFD.
    Replacement,
}
