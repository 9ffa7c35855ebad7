// Heads of a small history, of many tips over a long one, and where a look-up fails.
mod failing;
mod forks;
mod many_tips;
