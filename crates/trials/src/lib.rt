// Tests with many cases, apart from the code that they try, so that it is not proved again for them.
#![tactic(auto)]

#[cfg(test)]
mod costs;
#[cfg(test)]
mod map_files;
#[cfg(test)]
mod networks;
#[cfg(test)]
mod refusals;
