//! A script of one namespace, and its text.

pub(crate) const SCRIPT: &str = "pool 16
space red 16
red spawn 5 5 022
red pipe 1
red write 1 1 68656c6c6f
red read 1 0 3
red read 1 0 10
red close 1 1
red read 1 0 10
red exit 1
";

pub(crate) const TEXT: &str = "== red
1: pid 1
2: fds 0 1
3: num 5
4: bytes 3 68656c
5: bytes 2 6c6f
6: num 0
7: bytes 0 -
8: num 0
";
