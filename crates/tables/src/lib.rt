// The rules of the grid and of every kind of leaf, tested as tables. It holds tests alone.
#![tactic(auto)]

#[cfg(test)]
mod tests;
