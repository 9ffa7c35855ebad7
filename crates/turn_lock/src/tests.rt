// One pass, several passes, and threads, over a counter that keeps its increments.
mod counter;
mod passes;
mod threads;
