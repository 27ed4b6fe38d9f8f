// What a world is and does while data goes over its link, as laws of both drives rest on it: definitions and lemmas, and no code (RFC 959, section 2.3).
