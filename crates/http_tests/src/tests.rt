mod bodies;
mod heads;
