mod associations;
mod fragments;
mod memory;
mod pieces;
