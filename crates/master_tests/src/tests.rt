mod masters;
mod nodes;
