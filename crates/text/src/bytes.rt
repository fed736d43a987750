// The class of each byte of a bench file, in one table: whatever the lexer asks of a byte's class it takes from there (document 02, order 4).
ghost use Rattle.std.specs.Prelude.{◌≡◌};
ghost use Rattle.text.specs.definitions.Bytes.{is_name_byte, is_digit, is_comment_byte};
ghost use Rattle.text.specs.definitions.ByteClass.{byte_class};
ghost use Rattle.text.specs.inner_contracts.ByteTables.{mark_class, number_of};

use crate::bytes::ByteClass::{
    Blank, CommentOnly, Digit, Hash, Letter, Mark, NotAllowed, Underscore,
};
use crate::classes::{
    BRACE_CLOSE, BRACE_OPEN, COLON, COMMA, DIVIDE, DOT, EQUALS, MINUS, NAME, PLUS, ROUND_CLOSE,
    ROUND_OPEN, TIMES,
};

/// What a byte is in a bench file, as document 02 lists it.
#[repr(u8)]
#[derive(Clone, Copy, Debug, PartialEq, Eq)]
pub enum ByteClass {
    Letter,
    Digit,
    Underscore,
    Mark,
    Blank,
    Hash,
    CommentOnly,
    NotAllowed,
}

impl ByteClass {
    /// Its number in that list, from 0.
    pub fn number(self) -> u8
        ensures { result ≡ number_of self }
    {
        self as u8
    }
}

// An entry for each byte, in their order.
static CLASSES: [ByteClass; 256] = [
    NotAllowed, // 0
    NotAllowed, // 1
    NotAllowed, // 2
    NotAllowed, // 3
    NotAllowed, // 4
    NotAllowed, // 5
    NotAllowed, // 6
    NotAllowed, // 7
    NotAllowed, // 8
    Blank, // 9 tab
    Blank, // 10 line feed
    NotAllowed, // 11
    NotAllowed, // 12
    NotAllowed, // 13
    NotAllowed, // 14
    NotAllowed, // 15
    NotAllowed, // 16
    NotAllowed, // 17
    NotAllowed, // 18
    NotAllowed, // 19
    NotAllowed, // 20
    NotAllowed, // 21
    NotAllowed, // 22
    NotAllowed, // 23
    NotAllowed, // 24
    NotAllowed, // 25
    NotAllowed, // 26
    NotAllowed, // 27
    NotAllowed, // 28
    NotAllowed, // 29
    NotAllowed, // 30
    NotAllowed, // 31
    Blank, // 32 space
    CommentOnly, // 33 !
    CommentOnly, // 34 "
    Hash, // 35 #
    CommentOnly, // 36 $
    CommentOnly, // 37 %
    CommentOnly, // 38 &
    CommentOnly, // 39 '
    Mark, // 40 (
    Mark, // 41 )
    Mark, // 42 *
    Mark, // 43 +
    Mark, // 44 ,
    Mark, // 45 -
    Mark, // 46 .
    Mark, // 47 /
    Digit, // 48 0
    Digit, // 49 1
    Digit, // 50 2
    Digit, // 51 3
    Digit, // 52 4
    Digit, // 53 5
    Digit, // 54 6
    Digit, // 55 7
    Digit, // 56 8
    Digit, // 57 9
    Mark, // 58 :
    CommentOnly, // 59 ;
    CommentOnly, // 60 <
    Mark, // 61 =
    CommentOnly, // 62 >
    CommentOnly, // 63 ?
    CommentOnly, // 64 @
    Letter, // 65 A
    Letter, // 66 B
    Letter, // 67 C
    Letter, // 68 D
    Letter, // 69 E
    Letter, // 70 F
    Letter, // 71 G
    Letter, // 72 H
    Letter, // 73 I
    Letter, // 74 J
    Letter, // 75 K
    Letter, // 76 L
    Letter, // 77 M
    Letter, // 78 N
    Letter, // 79 O
    Letter, // 80 P
    Letter, // 81 Q
    Letter, // 82 R
    Letter, // 83 S
    Letter, // 84 T
    Letter, // 85 U
    Letter, // 86 V
    Letter, // 87 W
    Letter, // 88 X
    Letter, // 89 Y
    Letter, // 90 Z
    CommentOnly, // 91 [
    CommentOnly, // 92 \
    CommentOnly, // 93 ]
    CommentOnly, // 94 ^
    Underscore, // 95 _
    CommentOnly, // 96 `
    Letter, // 97 a
    Letter, // 98 b
    Letter, // 99 c
    Letter, // 100 d
    Letter, // 101 e
    Letter, // 102 f
    Letter, // 103 g
    Letter, // 104 h
    Letter, // 105 i
    Letter, // 106 j
    Letter, // 107 k
    Letter, // 108 l
    Letter, // 109 m
    Letter, // 110 n
    Letter, // 111 o
    Letter, // 112 p
    Letter, // 113 q
    Letter, // 114 r
    Letter, // 115 s
    Letter, // 116 t
    Letter, // 117 u
    Letter, // 118 v
    Letter, // 119 w
    Letter, // 120 x
    Letter, // 121 y
    Letter, // 122 z
    Mark, // 123 {
    CommentOnly, // 124 |
    Mark, // 125 }
    CommentOnly, // 126 ~
    NotAllowed, // 127
    NotAllowed, // 128
    NotAllowed, // 129
    NotAllowed, // 130
    NotAllowed, // 131
    NotAllowed, // 132
    NotAllowed, // 133
    NotAllowed, // 134
    NotAllowed, // 135
    NotAllowed, // 136
    NotAllowed, // 137
    NotAllowed, // 138
    NotAllowed, // 139
    NotAllowed, // 140
    NotAllowed, // 141
    NotAllowed, // 142
    NotAllowed, // 143
    NotAllowed, // 144
    NotAllowed, // 145
    NotAllowed, // 146
    NotAllowed, // 147
    NotAllowed, // 148
    NotAllowed, // 149
    NotAllowed, // 150
    NotAllowed, // 151
    NotAllowed, // 152
    NotAllowed, // 153
    NotAllowed, // 154
    NotAllowed, // 155
    NotAllowed, // 156
    NotAllowed, // 157
    NotAllowed, // 158
    NotAllowed, // 159
    NotAllowed, // 160
    NotAllowed, // 161
    NotAllowed, // 162
    NotAllowed, // 163
    NotAllowed, // 164
    NotAllowed, // 165
    NotAllowed, // 166
    NotAllowed, // 167
    NotAllowed, // 168
    NotAllowed, // 169
    NotAllowed, // 170
    NotAllowed, // 171
    NotAllowed, // 172
    NotAllowed, // 173
    NotAllowed, // 174
    NotAllowed, // 175
    NotAllowed, // 176
    NotAllowed, // 177
    NotAllowed, // 178
    NotAllowed, // 179
    NotAllowed, // 180
    NotAllowed, // 181
    NotAllowed, // 182
    NotAllowed, // 183
    NotAllowed, // 184
    NotAllowed, // 185
    NotAllowed, // 186
    NotAllowed, // 187
    NotAllowed, // 188
    NotAllowed, // 189
    NotAllowed, // 190
    NotAllowed, // 191
    NotAllowed, // 192
    NotAllowed, // 193
    NotAllowed, // 194
    NotAllowed, // 195
    NotAllowed, // 196
    NotAllowed, // 197
    NotAllowed, // 198
    NotAllowed, // 199
    NotAllowed, // 200
    NotAllowed, // 201
    NotAllowed, // 202
    NotAllowed, // 203
    NotAllowed, // 204
    NotAllowed, // 205
    NotAllowed, // 206
    NotAllowed, // 207
    NotAllowed, // 208
    NotAllowed, // 209
    NotAllowed, // 210
    NotAllowed, // 211
    NotAllowed, // 212
    NotAllowed, // 213
    NotAllowed, // 214
    NotAllowed, // 215
    NotAllowed, // 216
    NotAllowed, // 217
    NotAllowed, // 218
    NotAllowed, // 219
    NotAllowed, // 220
    NotAllowed, // 221
    NotAllowed, // 222
    NotAllowed, // 223
    NotAllowed, // 224
    NotAllowed, // 225
    NotAllowed, // 226
    NotAllowed, // 227
    NotAllowed, // 228
    NotAllowed, // 229
    NotAllowed, // 230
    NotAllowed, // 231
    NotAllowed, // 232
    NotAllowed, // 233
    NotAllowed, // 234
    NotAllowed, // 235
    NotAllowed, // 236
    NotAllowed, // 237
    NotAllowed, // 238
    NotAllowed, // 239
    NotAllowed, // 240
    NotAllowed, // 241
    NotAllowed, // 242
    NotAllowed, // 243
    NotAllowed, // 244
    NotAllowed, // 245
    NotAllowed, // 246
    NotAllowed, // 247
    NotAllowed, // 248
    NotAllowed, // 249
    NotAllowed, // 250
    NotAllowed, // 251
    NotAllowed, // 252
    NotAllowed, // 253
    NotAllowed, // 254
    NotAllowed, // 255
];

// The class of the token that each mark from `(` to `=` is; NAME for what is none. A table, since a `match` of so many arms is a jump at each mark.
static MARKS: [u8; 22] = [
    ROUND_OPEN, // (
    ROUND_CLOSE, // )
    TIMES, // *
    PLUS, // +
    COMMA, // ,
    MINUS, // -
    DOT, // .
    DIVIDE, // /
    NAME, // 0
    NAME, // 1
    NAME, // 2
    NAME, // 3
    NAME, // 4
    NAME, // 5
    NAME, // 6
    NAME, // 7
    NAME, // 8
    NAME, // 9
    COLON, // :
    NAME, // ;
    NAME, // <
    EQUALS, // =
];

/// The class of a byte.
pub fn class_of_byte(b: u8) -> ByteClass
    ensures { number_of result ≡ byte_class b }
{
    CLASSES[usize::from(b)]
}

/// "Letters, digits or `_`".
pub(crate) fn is_name_byte(b: u8) -> bool
    ensures { result ≡ is_name_byte b }
{
    matches!(class_of_byte(b), Letter | Digit | Underscore)
}

/// "Digits".
#[tactic(auto, using(crate::proofs::laws::ClassLaws::digit_byte))]
pub(crate) fn is_digit(b: u8) -> bool
    ensures { result ≡ is_digit b }
{
    matches!(class_of_byte(b), Digit)
}

/// What a comment goes on with. Of the blanks, the line feed ends it.
#[tactic(auto, using(crate::proofs::laws::ClassLaws::no_comment, crate::proofs::laws::ClassLaws::early_in_comment, crate::proofs::laws::ClassLaws::late_in_comment))]
pub(crate) fn is_comment_byte(b: u8) -> bool
    ensures { result ≡ is_comment_byte b }
{
    match class_of_byte(b) {
        Letter | Digit | Underscore | Mark => true,
        Blank | Hash | CommentOnly => b != b'\n',
        NotAllowed => false,
    }
}

/// The class of the token that a mark is; NAME, which no mark has, for other bytes.
#[tactic(auto, unfolding(crate::specs::inner_contracts::ByteTables::mark_class))]
pub fn mark_class(b: u8) -> u8
    ensures { result ≡ mark_class b }
{
    match b {
        b'('..=b'=' => MARKS[usize::from(b - b'(')],
        b'{' => BRACE_OPEN,
        b'}' => BRACE_CLOSE,
        _ => NAME,
    }
}
