// Class lines to be netted.
// Written by model/examples/tariff_rows.rs.

// Of each row: where its class lines start, and how many it has.
pub const ROWS: [u64; 118] = [
    // 0: no line
    0, 0,
    // 1: one line
    0, 1,
    // 2: 999 W
    1, 1,
    // 3: 1,000 W
    2, 1,
    // 4: no customers
    3, 1,
    // 5: no watts
    4, 1,
    // 6: the last pair
    5, 1,
    // 7: equal lines
    6, 2,
    // 8: three equal lines
    8, 3,
    // 9: every class
    11, 8,
    // 10: both ways
    19, 2,
    // 11: both ways, more back
    21, 2,
    // 12: both ways alike
    23, 2,
    // 13: marked case 10
    25, 2,
    // 14: 1 W less back
    27, 2,
    // 15: rounded once
    29, 2,
    // 16: a ring of three
    31, 3,
    // 17: two gainers
    34, 2,
    // 18: two losers
    36, 2,
    // 19: to itself
    38, 1,
    // 20: to itself and on
    39, 2,
    // 21: holder 8 loses
    41, 1,
    // 22: holder 8 gains
    42, 1,
    // 23: the largest holders
    43, 1,
    // 24: holder 8 in the last line
    44, 3,
    // 25: class 0
    47, 1,
    // 26: class 8
    48, 1,
    // 27: class 9
    49, 1,
    // 28: the largest class
    50, 2,
    // 29: most customers
    52, 1,
    // 30: a customer more
    53, 1,
    // 31: the largest customers
    54, 1,
    // 32: most watts
    55, 1,
    // 33: a watt more
    56, 1,
    // 34: the largest watts
    57, 1,
    // 35: most of both
    58, 1,
    // 36: 64 of the largest lines
    59, 64,
    // 37: 65 lines
    123, 65,
    // 38: 64 lines
    123, 64,
    // 39: drawn
    188, 7,
    // 40: drawn
    195, 7,
    // 41: drawn
    202, 9,
    // 42: drawn
    211, 6,
    // 43: drawn
    217, 7,
    // 44: drawn
    224, 9,
    // 45: drawn
    233, 7,
    // 46: drawn
    240, 4,
    // 47: drawn
    244, 7,
    // 48: drawn
    251, 5,
    // 49: drawn
    256, 4,
    // 50: drawn
    260, 4,
    // 51: drawn
    264, 5,
    // 52: drawn
    269, 6,
    // 53: drawn
    275, 5,
    // 54: drawn
    280, 6,
    // 55: drawn
    286, 7,
    // 56: drawn
    293, 3,
    // 57: drawn
    296, 8,
    // 58: drawn
    304, 3,
];
