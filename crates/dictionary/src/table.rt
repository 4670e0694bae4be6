// The rows of the dictionary, by rising identifier, digits before letters: the identifier's two characters, the least and the greatest
// length of the data, and their type.
use crate::{Kind, ROW_COUNT, Row};

macro_rules! row {
    ($first:literal, $second:literal, $least:literal, $greatest:expr, $kind:ident) => {
        Row {
            first: $first,
            second: $second,
            least: $least,
            greatest: $greatest,
            kind: Kind::$kind,
        }
    };
}

pub static ROWS: [Row; ROW_COUNT] = [
    row!(b'0', b'1', 0, None, Alphanumeric), // 01
    row!(b'0', b'2', 0, None, Alphanumeric), // 02
    row!(b'0', b'3', 0, None, Alphanumeric), // 03
    row!(b'0', b'4', 0, None, Alphanumeric), // 04
    row!(b'0', b'5', 0, None, Alphanumeric), // 05
    row!(b'0', b'6', 4, Some(4), Alphanumeric), // 06
    row!(b'0', b'7', 6, Some(6), Numeric), // 07
    row!(b'0', b'8', 4, Some(4), Alphanumeric), // 08
    row!(b'0', b'9', 4, Some(4), Numeric), // 09
    row!(b'0', b'A', 9, Some(9), Numeric), // 0A
    row!(b'0', b'B', 9, Some(9), Numeric), // 0B
    row!(b'0', b'C', 0, None, Alphanumeric), // 0C
    row!(b'0', b'D', 36, Some(36), Alphanumeric), // 0D
    row!(b'1', b'0', 0, Some(38), Alphanumeric), // 10
    row!(b'1', b'1', 0, Some(38), Alphanumeric), // 11
    row!(b'1', b'2', 0, Some(38), Alphanumeric), // 12
    row!(b'1', b'3', 0, Some(38), Alphanumeric), // 13
    row!(b'1', b'4', 0, Some(38), Alphanumeric), // 14
    row!(b'1', b'5', 0, Some(38), Alphanumeric), // 15
    row!(b'1', b'6', 0, Some(38), Alphanumeric), // 16
    row!(b'1', b'7', 0, Some(38), Alphanumeric), // 17
    row!(b'1', b'8', 0, None, Alphanumeric), // 18
    row!(b'1', b'9', 0, None, Alphanumeric), // 19
    row!(b'1', b'A', 0, None, Alphanumeric), // 1A
    row!(b'1', b'B', 0, None, Alphanumeric), // 1B
    row!(b'1', b'C', 8, Some(8), Numeric), // 1C
    row!(b'1', b'D', 0, Some(16), Numeric), // 1D
    row!(b'1', b'E', 0, Some(30), Numeric), // 1E
    row!(b'1', b'F', 0, Some(30), Numeric), // 1F
    row!(b'1', b'G', 1, Some(1), Numeric), // 1G
    row!(b'1', b'H', 1, Some(1), Numeric), // 1H
    row!(b'1', b'I', 0, Some(38), Alphanumeric), // 1I
    row!(b'1', b'J', 0, Some(38), Alphanumeric), // 1J
    row!(b'1', b'K', 0, Some(38), Alphanumeric), // 1K
    row!(b'1', b'L', 0, Some(38), Alphanumeric), // 1L
    row!(b'1', b'M', 0, Some(38), Alphanumeric), // 1M
    row!(b'1', b'N', 0, Some(38), Alphanumeric), // 1N
    row!(b'1', b'O', 0, Some(38), Alphanumeric), // 1O
    row!(b'1', b'P', 0, Some(38), Alphanumeric), // 1P
    row!(b'2', b'0', 0, Some(38), Alphanumeric), // 20
    row!(b'2', b'1', 0, Some(38), Alphanumeric), // 21
    row!(b'2', b'2', 0, Some(38), Alphanumeric), // 22
    row!(b'2', b'3', 0, Some(38), Alphanumeric), // 23
    row!(b'2', b'4', 5, Some(5), Numeric), // 24
    row!(b'2', b'5', 0, Some(32), Numeric), // 25
    row!(b'2', b'6', 2, Some(2), Alphanumeric), // 26
    row!(b'2', b'7', 0, Some(38), Alphanumeric), // 27
    row!(b'2', b'8', 0, Some(38), Alphanumeric), // 28
    row!(b'2', b'9', 0, Some(38), Alphanumeric), // 29
    row!(b'2', b'A', 0, Some(38), Alphanumeric), // 2A
    row!(b'2', b'B', 5, Some(5), Numeric), // 2B
    row!(b'2', b'C', 0, Some(32), Numeric), // 2C
    row!(b'2', b'D', 2, Some(2), Alphanumeric), // 2D
    row!(b'6', b'0', 0, Some(60), Alphanumeric), // 60
    row!(b'6', b'1', 0, Some(20), Alphanumeric), // 61
    row!(b'6', b'2', 0, Some(38), Alphanumeric), // 62
    row!(b'6', b'3', 0, Some(38), Alphanumeric), // 63
    row!(b'6', b'4', 0, Some(38), Alphanumeric), // 64
    row!(b'6', b'5', 2, Some(2), Alphanumeric), // 65
    row!(b'6', b'6', 0, Some(20), Alphanumeric), // 66
    row!(b'6', b'7', 2, Some(2), Alphanumeric), // 67
    row!(b'6', b'8', 1, Some(1), Alphanumeric), // 68
    row!(b'6', b'9', 8, Some(8), Numeric), // 69
    row!(b'6', b'A', 0, Some(32), Alphanumeric), // 6A
    row!(b'6', b'B', 3, Some(3), Alphanumeric), // 6B
    row!(b'6', b'C', 2, Some(2), Alphanumeric), // 6C
    row!(b'6', b'D', 0, Some(60), Alphanumeric), // 6D
    row!(b'6', b'E', 0, Some(60), Alphanumeric), // 6E
    row!(b'6', b'F', 0, Some(90), Alphanumeric), // 6F
    row!(b'6', b'G', 0, Some(38), Alphanumeric), // 6G
    row!(b'6', b'H', 0, Some(10), Alphanumeric), // 6H
    row!(b'6', b'I', 2, Some(2), Alphanumeric), // 6I
    row!(b'6', b'J', 1, Some(1), Numeric), // 6J
    row!(b'6', b'K', 19, Some(19), Numeric), // 6K
    row!(b'6', b'L', 8, Some(8), Alphanumeric), // 6L
    row!(b'6', b'M', 0, Some(40), Alphabetic), // 6M
    row!(b'6', b'N', 8, Some(8), Numeric), // 6N
    row!(b'6', b'O', 8, Some(8), Numeric), // 6O
    row!(b'6', b'P', 0, Some(40), Alphabetic), // 6P
    row!(b'6', b'Q', 0, Some(10), Alphanumeric), // 6Q
    row!(b'6', b'R', 12, Some(12), Alphanumeric), // 6R
    row!(b'6', b'S', 0, Some(38), Alphanumeric), // 6S
    row!(b'6', b'T', 0, Some(38), Alphanumeric), // 6T
    row!(b'6', b'U', 0, Some(38), Alphanumeric), // 6U
    row!(b'6', b'V', 0, Some(38), Alphanumeric), // 6V
    row!(b'6', b'W', 5, Some(5), Numeric), // 6W
    row!(b'6', b'X', 0, Some(32), Alphabetic), // 6X
    row!(b'6', b'Y', 2, Some(2), Alphabetic), // 6Y
    row!(b'6', b'Z', 9, Some(11), Alphanumeric), // 6Z
    row!(b'B', b'0', 0, Some(60), Alphanumeric), // B0
    row!(b'B', b'1', 0, Some(20), Alphanumeric), // B1
    row!(b'B', b'2', 0, Some(38), Alphanumeric), // B2
    row!(b'B', b'3', 0, Some(38), Alphanumeric), // B3
    row!(b'B', b'4', 0, Some(38), Alphanumeric), // B4
    row!(b'B', b'5', 2, Some(2), Alphanumeric), // B5
    row!(b'B', b'6', 1, Some(1), Alphanumeric), // B6
    row!(b'B', b'7', 8, Some(8), Numeric), // B7
    row!(b'B', b'8', 0, Some(32), Alphanumeric), // B8
    row!(b'B', b'9', 2, Some(2), Alphanumeric), // B9
    row!(b'B', b'A', 1, Some(1), Numeric), // BA
    row!(b'B', b'B', 0, Some(50), Alphanumeric), // BB
    row!(b'B', b'C', 0, Some(20), Alphanumeric), // BC
    row!(b'B', b'D', 1, Some(1), Numeric), // BD
    row!(b'B', b'E', 3, Some(3), Numeric), // BE
    row!(b'B', b'F', 3, Some(3), Numeric), // BF
    row!(b'B', b'G', 2, Some(2), Alphanumeric), // BG
    row!(b'B', b'H', 0, Some(30), Alphanumeric), // BH
    row!(b'B', b'I', 0, Some(30), Alphanumeric), // BI
    row!(b'B', b'J', 0, Some(30), Alphanumeric), // BJ
    row!(b'B', b'K', 14, Some(14), Alphanumeric), // BK
];
