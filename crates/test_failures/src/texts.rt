//! Texts that tests share: decks, a timing table, notes.

/// A timing table to try things with. Its numbers aren't those of a real machine.
pub(crate) const TIMES: &str = "\
[op]\n\
00 = { before = 1, after = 0, parity = \"any\" }\n\
01 = { before = 1, after = 0, parity = \"any\" }\n\
10 = { before = 3, after = 2, parity = \"even\" }\n\
11 = { before = 3, after = 2, parity = \"even\" }\n\
14 = { before = 3, after = 5, parity = \"even\", per = 2 }\n\
15 = { before = 3, after = 2, parity = \"even\" }\n\
16 = { before = 3, after = 2, parity = \"even\" }\n\
17 = { before = 3, after = 2, parity = \"even\" }\n\
18 = { before = 3, after = 2, parity = \"even\" }\n\
19 = { before = 3, after = 1, parity = \"odd\", per = 2 }\n\
20 = { before = 3, after = 3, parity = \"any\" }\n\
21 = { before = 3, after = 3, parity = \"any\" }\n\
22 = { before = 3, after = 4, parity = \"any\" }\n\
23 = { before = 3, after = 4, parity = \"any\" }\n\
24 = { before = 3, after = 3, parity = \"any\" }\n\
30 = { before = 2, after = 1, parity = \"even\", per = 2 }\n\
31 = { before = 2, after = 1, parity = \"even\", per = 2 }\n\
35 = { before = 2, after = 1, parity = \"even\", per = 2 }\n\
44 = { before = 2, after = 1, parity = \"any\" }\n\
45 = { before = 2, after = 1, parity = \"any\" }\n\
46 = { before = 2, after = 1, parity = \"any\" }\n\
47 = { before = 2, after = 1, parity = \"any\" }\n\
60 = { before = 3, after = 2, parity = \"even\" }\n\
61 = { before = 3, after = 2, parity = \"even\" }\n\
64 = { before = 3, after = 5, parity = \"even\", per = 2 }\n\
65 = { before = 3, after = 2, parity = \"even\" }\n\
66 = { before = 3, after = 2, parity = \"even\" }\n\
67 = { before = 3, after = 2, parity = \"even\" }\n\
68 = { before = 3, after = 2, parity = \"even\" }\n\
69 = { before = 3, after = 3, parity = \"any\" }\n\
70 = { before = 1, after = 1, parity = \"any\", wait_min = 100, wait_max = 3125 }\n\
71 = { before = 1, after = 1, parity = \"any\", wait_min = 100, wait_max = 3125 }\n\
90 = { before = 2, after = 1, parity = \"any\" }\n\
91 = { before = 2, after = 1, parity = \"any\" }\n\
92 = { before = 2, after = 1, parity = \"any\" }\n\
93 = { before = 2, after = 1, parity = \"any\" }\n\
94 = { before = 2, after = 1, parity = \"any\" }\n\
95 = { before = 2, after = 1, parity = \"any\" }\n\
96 = { before = 2, after = 1, parity = \"any\" }\n\
97 = { before = 2, after = 1, parity = \"any\" }\n\
98 = { before = 2, after = 1, parity = \"any\" }\n\
99 = { before = 2, after = 1, parity = \"any\" }\n\
";

/// Notes that allow the least: the programmed switch at STOP, and no load cards.
pub(crate) const NOTES: &str = "programmed = \"stop\"\nload_cards = \"none\"\n";

/// A deck of two words: it loads the distributor, and stops.
pub(crate) const TWO_WORDS: &str = "0100 +6901030106\n0106 +0100000106\nSTART 0100\n";

/// A loop that goes back to its own word until it stops.
pub(crate) const BRANCH_BACK: &str = "0100 +4501000110\n0110 +0100000110\nSTART 0100\n";

/// A mark on its branch back, passed three times at most.
pub(crate) const BACK: &str = "[[mark]]\nfrom = 100\nto = 100\nmost = 3\n";

/// A loop inside of a loop.
pub(crate) const LOOPS: &str = "0100 +4501000110\n0110 +4501000120\n0120 +0100000120\nSTART 0100\n";

/// A mark on the edge back of the outer loop, and one inside of it on that of the inner loop.
pub(crate) const NESTED: &str = "\
[[mark]]\nfrom = 110\nto = 100\nmost = 1\n[[mark]]\nfrom = 100\nto = 100\nmost = 2\n\
inside = 1\n\
";

/// Three marks: one of two edges with a name, one inside of it by its name, one by its number.
pub(crate) const LONG_MARKS: &str = "\
[[mark]]\nedges = [[110, 100], [120, 100]]\nmost = 9\nname = \"cards\"\n\
[[mark]]\nfrom = 104\nto = 103\nmost = 4\ninside = \"cards\"\nname = \"Words-2\"\n\
[[mark]]\nedges = [[106, 105]]\nmost = 0\ninside = 2\n\
";

/// A deck that alters the word at 0210, by which it goes on at 0110 or at 0120.
pub(crate) const TWO_ROADS: &str = "\
0100 +6901500200\n0110 +6901510200\n0120 +0100000120\n0150 +0000000110 +0000000120\n\
0200 +2402100210\nSTART 0100\n\
";

/// Its list.
pub(crate) const ROADS: &str = "\
[[list]]\nlocation = 210\npattern = [{ op = 0, d_from = 0, d_to = 0, i = 110 }, \
{ op = 0, d_from = 0, d_to = 0, i = 120 }]\n\
";

/// Calls of the words from 0200 to the altered one, each with its way back.
pub(crate) const TWO_CALLS: &str = "\
[[call]]\nfrom = 100\nto = 200\nexit = 210\nback = 110\n[[call]]\nfrom = 110\nto = 200\n\
exit = 210\nback = 120\n\
";

/// Marks on both edges that leave the altered word.
pub(crate) const BOTH_ROADS: &str =
    "[[mark]]\nfrom = 210\nto = 110\nmost = 1\n[[mark]]\nfrom = 210\nto = 120\nmost = 1\n";

/// A deck that stores the distributor over its own stop.
pub(crate) const STORES: &str = "0100 +2401060106\n0106 +0100000106\nSTART 0100\n";

/// The least notes, and a list for that stop: any stop.
pub(crate) const STOPS: &str = "\
programmed = \"stop\"\nload_cards = \"none\"\n[[list]]\nlocation = 106\n\
pattern = [{ op = 1, d_from = 0, d_to = 9999, i = 106 }]\n\
";
