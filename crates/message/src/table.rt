// Document 01's table of 256 meanings: entry b is the code of what byte b means (specs/Meaning.antt, `code_of`).
// 0 a primary command without a meaning, 1 listen address, 2 UNL, 3 talk address, 4 UNT, 5 SDC, 6 GET, 7 TCT, 8 DCL,
// 9 SPE, 10 SPD, 11 secondary address, 12 neither primary nor secondary, 13 PPC, 14 PPU. Numbers, since document 01
// names this form, a constant table of message codes.
pub const CODES: [u8; 256] = [
    0, 0, 0, 0, 5, // 04 SDC
    13, // 05 PPC
    0, 0, 6, // 08 GET
    7, // 09 TCT
    0, 0, 0, 0, 0, 0, 0, 0, 0, 0, 8, // 14 DCL
    14, // 15 PPU
    0, 0, 9, // 18 SPE
    10, // 19 SPD
    0, 0, 0, 0, 0, 0, 1, // 20 listen address 0
    1, 1, 1, 1, 1, 1, 1, 1, 1, 1, 1, 1, 1, 1, 1, 1, 1, 1, 1, 1, 1, 1, 1, 1, 1, 1, 1, 1, 1, 1, // 3E listen address 30
    2, // 3F UNL
    3, // 40 talk address 0
    3, 3, 3, 3, 3, 3, 3, 3, 3, 3, 3, 3, 3, 3, 3, 3, 3, 3, 3, 3, 3, 3, 3, 3, 3, 3, 3, 3, 3, 3, // 5E talk address 30
    4, // 5F UNT
    11, // 60 secondary 0
    11, 11, 11, 11, 11, 11, 11, 11, 11, 11, 11, 11, 11, 11, 11, 11, 11, 11, 11, 11, 11, 11, 11, 11,
    11, 11, 11, 11, 11, 11, // 7E secondary 30
    12, // 7F neither
    0, 0, 0, 0, 5, // 84 SDC
    13, // 85 PPC
    0, 0, 6, // 88 GET
    7, // 89 TCT
    0, 0, 0, 0, 0, 0, 0, 0, 0, 0, 8, // 94 DCL
    14, // 95 PPU
    0, 0, 9, // 98 SPE
    10, // 99 SPD
    0, 0, 0, 0, 0, 0, 1, // A0 listen address 0
    1, 1, 1, 1, 1, 1, 1, 1, 1, 1, 1, 1, 1, 1, 1, 1, 1, 1, 1, 1, 1, 1, 1, 1, 1, 1, 1, 1, 1, 1, // BE listen address 30
    2, // BF UNL
    3, // C0 talk address 0
    3, 3, 3, 3, 3, 3, 3, 3, 3, 3, 3, 3, 3, 3, 3, 3, 3, 3, 3, 3, 3, 3, 3, 3, 3, 3, 3, 3, 3, 3, // DE talk address 30
    4, // DF UNT
    11, // E0 secondary 0
    11, 11, 11, 11, 11, 11, 11, 11, 11, 11, 11, 11, 11, 11, 11, 11, 11, 11, 11, 11, 11, 11, 11, 11,
    11, 11, 11, 11, 11, 11, // FE secondary 30
    12, // FF neither
];
