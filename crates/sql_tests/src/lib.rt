//! Tests of the SQL crates, and of them together: texts that are parsed, planned, and evaluated over plain
//! lists of rows.
#![tactic(auto)]

#[cfg(test)]
mod answers;
#[cfg(test)]
mod expressions;
#[cfg(test)]
mod parsing;
#[cfg(test)]
mod parts;
#[cfg(test)]
mod plain;
#[cfg(test)]
mod planned;
#[cfg(test)]
mod records;
#[cfg(test)]
mod running;
#[cfg(test)]
mod table;
#[cfg(test)]
mod values;
#[cfg(test)]
mod words;
#[cfg(test)]
mod writes;
