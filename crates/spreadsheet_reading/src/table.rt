// The reader's tables: what may follow each beginning of a file. That every place of them is right is computed (`every-turn`, `every-state`,
// `every-column`, proofs/TableTests.antt). States are numbers, and what comes next a letter, since those theorems are about the tables' bytes.
ghost use Rattle.std.specs.Prelude.{◌≡◌, ◌≤◌, ◌<◌};
ghost use Rattle.limits.specs.Refusals.{number_of};
ghost use Rattle.spreadsheet_reading.specs.Machine.{column_table, turn_table, states, end, column_of, turn_at, refusal_in};

use limits::refusals::Refusal;

// The column of each byte, sixteen to a line:
// a to i  the letters of the header: p e r i o d m w h
// j       a digit
// k l m n minus, point, quote, comma
// o p     CR, LF
// q       other text
// r       what no file holds
pub(crate) const COLUMNS: [u8; 256] = *b"\
rrrrrrrrrrprrorr\
rrrrrrrrrrrrrrrr\
qqmqqqqqqqqqnklq\
jjjjjjjjjjqqqqqq\
qqqqqqqqqqqqqqqq\
qqqqqqqqqqqqqqqq\
qqqqfbqqidqqqgqe\
aqcqqqqhqqqqqqqr\
rrrrrrrrrrrrrrrr\
rrrrrrrrrrrrrrrr\
rrrrrrrrrrrrrrrr\
rrrrrrrrrrrrrrrr\
rrrrrrrrrrrrrrrr\
rrrrrrrrrrrrrrrr\
rrrrrrrrrrrrrrrr\
rrrrrrrrrrrrrrrr";

const FIRST_COLUMN: u8 = b'a';

// The end has a column of its own, the last.
const END: usize = 18;

const STATES: usize = 55;

const ROW: usize = 50;

// A row for each state: its letter; by each column what comes next; and a beginning of a file that leads there. What comes next is a state's letter; 9, 0
// or 1 where 29, 30 or 31 refuses it; or at the end a point, where a file ends.
// The columns, from the third place of a row on (a quote and a backslash stand escaped, so some rows are longer here):
//periodmwh0-.",CLtx$   C is CR, L is LF, t is other text, x is what no file holds, $ is the end
pub(crate) const TURNS: [u8; STATES * ROW] = *b"\
A B00000000000H000090                             \
B 0C00000000009000090 p                           \
C 00D0000000009000090 pe                          \
D 000E000000009000090 per                         \
E 0000F00000009000090 peri                        \
F 00000G0000009000090 perio                       \
G 0000000000009P00090 period                      \
H I000000000000000099 \"                           \
I 0J00000000000000099 \"p                          \
J 00K0000000000000099 \"pe                         \
K 000L000000000000099 \"per                        \
L 0000M00000000000099 \"peri                       \
M 00000N0000000000099 \"perio                      \
N 000000000000O000099 \"period                     \
O 9999999999990P00990 \"period\"                    \
P 000000Q00000T000090 period,                     \
Q 0000000R00009000090 period,m                    \
R 00000000S0009000090 period,mw                   \
S 00000000000090YZ09. period,mwh                  \
T 000000U000000000099 period,\"                    \
U 0000000V00000000099 period,\"m                   \
V 00000000W0000000099 period,\"mw                  \
W 000000000000X000099 period,\"mwh                 \
X 99999999999900YZ99. period,\"mwh\"                \
Y 999999999999999Z999 period,mwh\n00,-00000.000\r   \
Z 111111111[11]10019. period,mwh\n                 \
[ 111111111\\119a00190 period,mwh\n0                \
\\ 1111111111119a00190 period,mwh\n00               \
] 111111111^111111199 period,mwh\n\"                \
^ 111111111_11`111199 period,mwh\n\"0               \
_ 111111111111`111199 period,mwh\n\"00              \
` 9999999999991a00990 period,mwh\n\"00\"             \
a 111111111cb1l011191 period,mwh\n00,              \
b 111111111c119011191 period,mwh\n00,-             \
c 111111111d1h90YZ19. period,mwh\n00,-0            \
d 111111111e1h90YZ19. period,mwh\n00,-00           \
e 111111111f1h90YZ19. period,mwh\n00,-000          \
f 111111111g1h90YZ19. period,mwh\n00,-0000         \
g 11111111111h90YZ19. period,mwh\n00,-00000        \
h 111111111i119011191 period,mwh\n00,-00000.       \
i 111111111j1190YZ19. period,mwh\n00,-00000.0      \
j 111111111k1190YZ19. period,mwh\n00,-00000.00     \
k 11111111111190YZ19. period,mwh\n00,-00000.000    \
l 111111111nm11111199 period,mwh\n00,\"             \
m 111111111n111111199 period,mwh\n00,\"-            \
n 111111111o1sw111199 period,mwh\n00,\"-0           \
o 111111111p1sw111199 period,mwh\n00,\"-00          \
p 111111111q1sw111199 period,mwh\n00,\"-000         \
q 111111111r1sw111199 period,mwh\n00,\"-0000        \
r 11111111111sw111199 period,mwh\n00,\"-00000       \
s 111111111t111111199 period,mwh\n00,\"-00000.      \
t 111111111u11w111199 period,mwh\n00,\"-00000.0     \
u 111111111v11w111199 period,mwh\n00,\"-00000.00    \
v 111111111111w111199 period,mwh\n00,\"-00000.000   \
w 99999999999910YZ99. period,mwh\n00,\"-00000.000\"  ";

// In a row the letter of the state and a space stand before the columns.
const COLUMNS_FROM: usize = 2;

pub(crate) const FIRST_STATE: u8 = b'A';

// Nothing has been read.
pub(crate) const START: u8 = b'A' - FIRST_STATE;

// A line after the header may begin.
pub(crate) const FRESH: u8 = b'Z' - FIRST_STATE;

// A file ends here.
pub(crate) const FILE: u8 = b'.';

// Both tables, lent. They are the definition's, so whoever holds them owes nothing about them. A state stays a number: the tables' rows are counted by it, and
// `every-turn` and `every-state` speak of those rows.
#[derive(Clone, Copy)]
pub(crate) struct Tables<'a> {
    pub columns: &'a [u8],
    pub turns: &'a [u8],
    ghost columns_are: { columns.now ≡ column_table },
    ghost turns_are: { turns.now ≡ turn_table },
}

impl Tables<'_> {
    fn column_of(self, byte: u8) -> usize
        ensures { result ≡ column_of byte }
    {
        let i = byte as usize;
        (self.columns[i] - FIRST_COLUMN) as usize
    }

    fn turn_at(self, state: u8, column: usize) -> u8
        requires { (state < states) × (column ≤ end) }
        ensures { result ≡ turn_at state column }
    {
        let i = state as usize * ROW + (COLUMNS_FROM + column);
        self.turns[i]
    }

    // What comes next after this byte.
    pub(crate) fn turn_by(self, state: u8, byte: u8) -> u8
        requires { state < states }
        ensures { result ≡ turn_at state (column_of byte) }
    {
        self.turn_at(state, self.column_of(byte))
    }

    // What comes next where the bytes end.
    pub(crate) fn turn_at_end(self, state: u8) -> u8
        requires { state < states }
        ensures { result ≡ turn_at state end }
    {
        self.turn_at(state, END)
    }
}

// Why it refuses.
pub(crate) fn refusal_in(turn: u8) -> Refusal
    ensures { number_of result ≡ refusal_in turn }
{
    match turn {
        b'9' => Refusal::NotCsv,
        b'0' => Refusal::NotTwoFields,
        _ => Refusal::NotANumber,
    }
}
